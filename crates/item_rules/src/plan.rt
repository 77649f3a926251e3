// The rules of the plan: tests of an element with those beside it.

ghost use Rattle.std.specs.Prelude.{◌≡◌};
ghost use Rattle.road.specs.Rules.{may_follow, wrong_kind, long_straight, short_straight, tight_arc, short_arc, element_test};
ghost use Rattle.item_rules.specs.Any.{any_broken};

use crate::{ItemRule, clothoid};
use road::{Element, ElementAmong, ElementRule, Limits};

// The plan length that a road may have; no limit of the rule book.
pub const LONGEST: u64 = 100_000_000;

// Whether an element may follow the two before it.
#[tactic(auto, unfolding(road::specs::Rules::may_follow))]
fn may_follow(earlier: &Element, before: &Element, e: &Element) -> bool
    ensures { result ≡ may_follow earlier.now before.now e.now }
{
    if before.is_clothoid() {
        e.is_arc() || (earlier.is_arc() && (e.is_straight() || e.is_clothoid()))
    } else {
        e.is_clothoid()
    }
}

// Refusal 7: a kind that no allowed order can have after the kinds before it, or a plan that stops short.
#[tactic(auto, unfolding(road::specs::Rules::wrong_kind))]
fn is_wrong_kind(e: &ElementAmong) -> bool
    ensures { result ≡ wrong_kind e.now.place e.now.count e.now.earlier e.now.before e.now.element }
{
    if e.count <= e.place {
        return e.place == 0 || !e.before.is_straight();
    }
    if e.place == 0 {
        return !e.element.is_straight();
    }
    !may_follow(&e.earlier, &e.before, &e.element)
}

// Refusal 8: a straight is longer than straight max.
fn is_long_straight(l: &Limits, e: &Element) -> bool
    ensures { result ≡ long_straight l.now e.now }
{
    e.is_straight() && l.straight_max.is_some_and(|most| most < e.length)
}

// Refusal 9: a straight between bends of the same turn, the arcs before it and after it, is shorter than straight min.
#[tactic(auto, unfolding(road::specs::Rules::short_straight))]
pub fn is_short_straight(l: &Limits, before: &Element, e: &Element, after: &Element) -> bool
    ensures { result ≡ short_straight l.now before.now.radius e.now after.now.radius }
{
    e.is_straight()
        && clothoid::are_same_turn(before.radius, after.radius)
        && l.straight_min.is_some_and(|least| e.length < least)
}

// Refusal 10: an arc's radius, unsigned, is below R min.
fn is_tight_arc(l: &Limits, e: &Element) -> bool
    ensures { result ≡ tight_arc l.now e.now }
{
    e.is_arc() && e.radius.unsigned_abs() < l.radius_min
}

// Refusal 11: an arc is shorter than arc min.
fn is_short_arc(l: &Limits, e: &Element) -> bool
    ensures { result ≡ short_arc l.now e.now }
{
    e.is_arc() && e.length < l.arc_min
}

impl ItemRule for ElementRule {
    type Item = ElementAmong;

    ghost test = { element_test };

    fn places(self, count: usize) -> usize {
        match self {
            ElementRule::Kinds => count + 1,
            _ => count,
        }
    }

    fn is_broken(self, l: &Limits, e: &ElementAmong) -> bool {
        match self {
            ElementRule::PlanLength => LONGEST < e.end,
            ElementRule::Kinds => is_wrong_kind(e),
            ElementRule::LinkedArcs => clothoid::is_wrong_link(e),
            ElementRule::LongStraight => is_long_straight(l, &e.element),
            ElementRule::TightArc => is_tight_arc(l, &e.element),
            ElementRule::ShortArc => is_short_arc(l, &e.element),
            ElementRule::ShortClothoid => clothoid::is_short_clothoid(l, e),
        }
    }
}

// The rules of an element.
const ELEMENT_RULES: [ElementRule; 7] = [
    ElementRule::PlanLength,
    ElementRule::Kinds,
    ElementRule::LinkedArcs,
    ElementRule::LongStraight,
    ElementRule::TightArc,
    ElementRule::ShortArc,
    ElementRule::ShortClothoid,
];

// Whether any of them is broken: a plan that breaks none is passed once.
#[tactic(auto, unfolding(crate::specs::Any::any_broken))]
pub fn is_any_broken(l: &Limits, e: &ElementAmong) -> bool
    ensures { result ≡ any_broken l.now e.now }
{
    ELEMENT_RULES.iter().any(|rule| rule.is_broken(l, e))
}
