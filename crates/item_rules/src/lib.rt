// The rules of an item with those beside it: how many places of its list a rule looks at, and whether the item there breaks it.

#![tactic(auto)]

ghost use Rattle.std.specs.Prelude.{◌≡◌, ◌<◌, ◌≤◌, ◌+◌};

mod clothoid;
mod crossfall;
mod plan;
mod profile;

pub use clothoid::{EGG_LARGEST, are_same_turn, is_short_clothoid, is_wrong_link};
pub use plan::{LONGEST, is_any_broken, is_short_straight};
use road::Limits;

// A rule of the items of one list.
// A rule is a case of an enum, and a `match` names its test: a table of functions would hold function pointers, which the gate refuses, and closures would be no plainer.
pub trait ItemRule {
    ghost use Rattle.std.specs.Prelude.{ℕ};
    ghost use Rattle.road.specs.Rules.{ItemTest};

    // An item with those beside it.
    type Item;

    ghost test: { Self → ItemTest Self.Item };

    // How many places it looks at in a list of so many items.
    fn places(self, count: usize) -> usize
        requires { count < usize.MAX }
        ensures places { result ≡ (test self).places count }
        ensures within { result ≤ count + 1 };

    // Whether the item breaks it.
    fn is_broken(self, l: &Limits, item: &Self::Item) -> bool
        ensures { result ≡ (test self).broken l.now item.now };
}
