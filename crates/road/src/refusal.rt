// What a file or a call is refused for, and where.

ghost use Rattle.std.specs.Prelude.{◌≡◌};
ghost use Rattle.road.specs.Faults.{fault_number, element_number, tangent_number, point_number, rule_number};

use crate::{ElementRule, PointRule, Rule, TangentRule};

// What a file or a call is refused for.
#[derive(Clone, Copy, Debug, PartialEq, Eq)]
pub enum Fault {
    LongFile,
    BrokenNumber,
    OutOfRange,
    BytesBehind,
    Broken(Rule),
    ShortBuffer,
    BeyondEnd,
    NoDay,
    BadPeg,
}

// A refusal: what for, and its place.
#[derive(Clone, Copy, Debug, PartialEq, Eq)]
pub struct Refusal {
    pub fault: Fault,
    pub place: usize,
}

impl ElementRule {
    // The refusal's number.
    pub fn number(self) -> u32
        ensures { result ≡ element_number self }
    {
        self as u32
    }
}

impl TangentRule {
    // The refusal's number.
    pub fn number(self) -> u32
        ensures { result ≡ tangent_number self }
    {
        self as u32
    }
}

impl PointRule {
    // The refusal's number.
    pub fn number(self) -> u32
        ensures { result ≡ point_number self }
    {
        self as u32
    }
}

impl Rule {
    // The refusal's number; a match, since `as` gives no number of an enum whose cases hold a value.
    pub fn number(self) -> u32
        ensures { result ≡ rule_number self }
    {
        match self {
            Rule::Element(of) => of.number(),
            Rule::OtherTotal => 6,
            Rule::ShortStraight => 9,
            Rule::Tangent(of) => of.number(),
            Rule::Point(of) => of.number(),
            Rule::Superelevation => 19,
        }
    }
}

impl Fault {
    // The refusal at a place.
    pub fn at(self, place: usize) -> Refusal
        ensures { result ≡ record { fault = self; place = place } }
    {
        Refusal { fault: self, place }
    }

    // The number by which the papers know it; a match, as at `Rule`.
    pub fn number(self) -> u32
        ensures { result ≡ fault_number self }
    {
        match self {
            Fault::LongFile => 1,
            Fault::BrokenNumber => 2,
            Fault::OutOfRange => 3,
            Fault::BytesBehind => 4,
            Fault::Broken(rule) => rule.number(),
            Fault::ShortBuffer => 20,
            Fault::BeyondEnd => 21,
            Fault::NoDay => 22,
            Fault::BadPeg => 24,
        }
    }
}
