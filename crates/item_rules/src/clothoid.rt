// The rules of a clothoid with the arcs around it: refusals 12 and 23.

ghost use Rattle.std.specs.Prelude.{◌≡◌};
ghost use Rattle.road.specs.Rules.{same_turn, wrong_egg, wrong_link, own_arc, short_egg, below_parameter, too_short, short_clothoid};

use road::{Element, ElementAmong, LeastClothoid, Limits};

// The greatest radius beside an egg.
pub const EGG_LARGEST: u32 = 1_000_000;

// Whether two radii are of the same turn.
pub fn are_same_turn(a: i32, b: i32) -> bool
    ensures { result ≡ same_turn a b }
{
    (0 < a && 0 < b) || (a < 0 && b < 0)
}

// Refusal 23, of an egg: equal radii, opposite turns or a radius, unsigned, over 1,000,000 mm.
#[tactic(auto, unfolding(road::specs::Rules::wrong_egg))]
fn is_wrong_egg(first: i32, second: i32) -> bool
    ensures { result ≡ wrong_egg first second }
{
    let a = first.unsigned_abs();
    let b = second.unsigned_abs();
    a == b || !are_same_turn(first, second) || EGG_LARGEST < a || EGG_LARGEST < b
}

// Refusal 23: a wrong egg, or a pair of clothoids between arcs of the same turn. The clothoid stands before an arc, with an arc or with a clothoid and an arc before it.
#[tactic(auto, unfolding(road::specs::Rules::wrong_link))]
pub fn is_wrong_link(e: &ElementAmong) -> bool
    ensures { result ≡ wrong_link e.now.earlier e.now.before e.now.element e.now.after }
{
    if !e.element.is_clothoid() || !e.after.is_arc() {
        return false;
    }
    if e.before.is_arc() {
        return is_wrong_egg(e.before.radius, e.after.radius);
    }
    e.before.is_clothoid() && e.earlier.is_arc() && are_same_turn(e.earlier.radius, e.after.radius)
}

// The radius of the arc of a clothoid that has one. Both radii are read first: a choice between the elements would keep each element of a pass in memory.
#[tactic(auto, unfolding(road::specs::Rules::own_arc))]
fn own_arc(before: &Element, after: &Element) -> i32
    ensures { result ≡ own_arc before.now after.now }
{
    let earlier = before.radius;
    let later = after.radius;
    if after.is_arc() { later } else { earlier }
}

// Whether an egg's length times both radii falls short of the square of the parameter times their difference.
#[tactic(auto, unfolding(road::specs::Rules::short_egg))]
fn is_short_egg(parameter: u32, length: u32, first: i32, second: i32) -> bool
    ensures { result ≡ short_egg parameter length first second }
{
    let over = u128::from(length)
        * u128::from(first.unsigned_abs())
        * u128::from(second.unsigned_abs());
    let square = u128::from(parameter) * u128::from(parameter);
    over < square * u128::from(first.abs_diff(second))
}

// Whether a clothoid's parameter is below a least one.
#[tactic(auto, unfolding(road::specs::Rules::below_parameter))]
fn is_below_parameter(parameter: u32, e: &ElementAmong) -> bool
    ensures { result ≡ below_parameter parameter e.now.element.length e.now.before e.now.after }
{
    let length = e.element.length;
    if e.before.is_arc() && e.after.is_arc() {
        return is_short_egg(parameter, length, e.before.radius, e.after.radius);
    }
    let radius = own_arc(&e.before, &e.after).unsigned_abs();
    u64::from(length) * u64::from(radius) < u64::from(parameter) * u64::from(parameter)
}

// Whether a clothoid falls short of what is asked of it.
#[tactic(auto, unfolding(road::specs::Rules::too_short))]
fn is_too_short(least: LeastClothoid, e: &ElementAmong) -> bool
    ensures { result ≡ too_short least e.now.element.length e.now.before e.now.after }
{
    match least {
        LeastClothoid::Parameter(parameter) => is_below_parameter(parameter, e),
        LeastClothoid::Length(shortest) => e.element.length < shortest,
    }
}

// Refusal 12: a clothoid is too short for its arc or its arcs, or for the old handbook.
#[tactic(auto, unfolding(road::specs::Rules::short_clothoid))]
pub fn is_short_clothoid(l: &Limits, e: &ElementAmong) -> bool
    ensures { result ≡ short_clothoid l.now e.now.before e.now.element e.now.after }
{
    e.element.is_clothoid() && is_too_short(l.clothoid, e)
}
