// An alignment with its plan length T, in which a listed station is looked for.

ghost use Rattle.std.specs.Prelude.{◌≡◌, ◌<◌, ◌≤◌};
ghost use Rattle.road.specs.Exact.{total};

use accepted_road::AcceptedRoad;
use road::Alignment;

// Any alignment with its T.
#[derive(Clone, Copy)]
pub struct AlignmentWithTotal<'a> {
    pub alignment: &'a Alignment,
    pub whole: u64,
    ghost step: { 0 < alignment.now.head.step },
    ghost whole_is_total: { whole ≡ total alignment.now },
    ghost whole_small: { whole ≤ 100_000_000 },
}

// What has an alignment with its T.
pub trait WithTotal {
    ghost use Rattle.std.specs.Prelude.{◌≡◌};
    ghost use Rattle.road.specs.File.{Road};

    ghost road: { Self → Road };

    // What else is known of it.
    ghost guaranteed: { Self → Type 0 };

    fn with_total(&self) -> AlignmentWithTotal<'_>
        ensures road { result.alignment.now ≡ road self.now }
        ensures guaranteed { guaranteed self.now };
}

impl<'a> WithTotal for AlignmentWithTotal<'a> {
    ghost road = { λ m. m.alignment.now };

    ghost guaranteed = { λ m. Unit {0} };

    fn with_total(&self) -> AlignmentWithTotal<'_> {
        *self
    }
}

impl WithTotal for AcceptedRoad {
    ghost use Rattle.laws_of_acceptance.specs.Guaranteed.{Guaranteed};

    ghost road = { λ r. r };

    ghost guaranteed = { Guaranteed };

    fn with_total(&self) -> AlignmentWithTotal<'_> {
        AlignmentWithTotal {
            alignment: self.alignment(),
            whole: self.total(),
        }
    }
}
