// An accepted road: its alignment and, beside it, its lane width and T.

#![tactic(auto)]

ghost use Rattle.std.specs.Prelude.{◌≡◌};
ghost use Rattle.road.specs.Exact.{total};
ghost use Rattle.road.specs.Lane.{lane_width};
ghost use Rattle.laws_of_acceptance.specs.Guaranteed.{Guaranteed};

use road::Alignment;
use std::marker::Model;

// Contracts see the road; that it keeps the rules and the limits is a fact of every value.
// Each method ensures `Guaranteed`, since callers in other crates know an invariant only by what a method ensures.
#[derive(Clone, Copy)]
pub struct AcceptedRoad {
    alignment: Alignment,
    lane: u32,
    total: u64,
}

impl Model for AcceptedRoad {
    ghost use Rattle.road.specs.File.{Road};

    ghost Value = { Road };

    ghost use Rattle.accepted_road.specs.Kept.{Kept, kept, kept-back};

    ghost view = { λ v. v.alignment };

    ghost invariant = { Kept };

    ghost inverse = { kept };

    ghost inverse_ok = { kept-back };
}

impl AcceptedRoad {
    // The road of an alignment that keeps the rules and the limits, with its lane width and its T.
    #[tactic(auto, unfolding(road::specs::Lane::lane_width, road::specs::Limits::limits))]
    pub fn new(alignment: Alignment) -> Self
        requires { Guaranteed alignment }
        ensures { result ≡ alignment }
    {
        let lane = limits::limits_of(alignment.head()).lane;
        let total = alignment.total();
        AcceptedRoad {
            alignment,
            lane,
            total,
        }
    }

    pub fn alignment(&self) -> &Alignment
        ensures road { result.now ≡ self.now }
        ensures guaranteed { Guaranteed self.now }
    {
        &self.alignment
    }

    // The step.
    pub fn step(&self) -> u64
        ensures step { result ≡ self.now.head.step }
        ensures guaranteed { Guaranteed self.now }
    {
        u64::from(self.alignment.head().step)
    }

    // The lane width.
    pub fn lane(&self) -> u32
        ensures lane { result ≡ lane_width self.now }
        ensures guaranteed { Guaranteed self.now }
    {
        self.lane
    }

    // The plan length T.
    pub fn total(&self) -> u64
        ensures total { result ≡ total self.now }
        ensures guaranteed { Guaranteed self.now }
    {
        self.total
    }
}
