// The numbers by which a file names a kind, a class and a terrain, and the places of class and terrain in the table of speeds.

ghost use Rattle.std.specs.Prelude.{◌≡◌, ◌<◌, ◌≤◌, ◌-◌, ok_or, slice_get, Err};
ghost use Rattle.road.specs.File.{kind_of, class_of, terrain_of};
ghost use Rattle.road.specs.Limits.{class_row, terrain_column, class_number, terrain_number};
ghost use Rattle.road.specs.Exact.{is_straight, is_arc, is_clothoid};
ghost use Rattle.road.specs.Faults.{named};

use crate::{Class, Element, Fault, Kind, Terrain};

// What a number stands for in a list whose first item has the number `first`.
fn named<T: Copy>(first: u32, all: &[T], number: u32) -> Result<T, Fault>
    ensures within { first ≤ number → result ≡ ok_or (slice_get all.now (number - first)) Fault.OutOfRange }
    ensures below { number < first → result ≡ Err Fault.OutOfRange }
{
    number
        .checked_sub(first)
        .and_then(|place| all.get(place as usize).copied())
        .ok_or(Fault::OutOfRange)
}

impl TryFrom<u32> for Kind {
    type Error = Fault;

    ghost try_from_gives = { λ number result. result ≡ named 0 2 kind_of number };

    fn try_from(number: u32) -> Result<Self, Fault> {
        named(0, &[Kind::Straight, Kind::Arc, Kind::Clothoid], number)
    }
}

impl TryFrom<u32> for Class {
    type Error = Fault;

    ghost try_from_gives = { λ number result. result ≡ named 1 4 class_of number };

    fn try_from(number: u32) -> Result<Self, Fault> {
        named(
            1,
            &[
                Class::LongDistance,
                Class::Connecting,
                Class::Collecting,
                Class::Access,
            ],
            number,
        )
    }
}

impl TryFrom<u32> for Terrain {
    type Error = Fault;

    ghost try_from_gives = { λ number result. result ≡ named 1 3 terrain_of number };

    fn try_from(number: u32) -> Result<Self, Fault> {
        named(
            1,
            &[Terrain::Flat, Terrain::Hilly, Terrain::Mountain],
            number,
        )
    }
}

impl Class {
    // Its row in the table of speeds; past the last one for `Other`.
    pub fn row(self) -> usize
        ensures row { result ≡ class_row self }
        ensures within { class_number self ≤ 4 → result < 4 }
        ensures most { result ≤ 4 }
    {
        self as usize
    }
}

impl Terrain {
    // Its column in the table of speeds; past the last one for `Other`.
    pub fn column(self) -> usize
        ensures column { result ≡ terrain_column self }
        ensures within { terrain_number self ≤ 3 → result < 3 }
        ensures most { result ≤ 3 }
    {
        self as usize
    }
}

impl Element {
    pub fn is_straight(self) -> bool
        ensures { result ≡ is_straight self }
    {
        self.kind == Kind::Straight
    }

    pub fn is_arc(self) -> bool
        ensures { result ≡ is_arc self }
    {
        self.kind == Kind::Arc
    }

    pub fn is_clothoid(self) -> bool
        ensures { result ≡ is_clothoid self }
    {
        self.kind == Kind::Clothoid
    }
}
