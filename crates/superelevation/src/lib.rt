// Refusal 19, as far as a crossfall point and the next show it: whether the crossfall changes on an arc, and whether it is right at its start.

#![tactic(auto)]

ghost use Rattle.std.specs.Prelude.{◌≡◌, neg_ℤ};
ghost use Rattle.road.specs.Exact.{crossfall_of};
ghost use Rattle.road.specs.Rules.{changes_between, eq_z, inner, superelevated, crowned, allowed};
ghost use Rattle.superelevation.specs.Shown.{shown_by};

use road::{Crossfall, Element, Limits};
use std::ops::Range;

// A crossfall point and the next.
#[derive(Clone, Copy)]
pub struct Pair {
    pub point: Crossfall,
    pub next: Crossfall,
}

#[tactic(auto, unfolding(road::specs::Rules::changes_between))]
fn changes_between(span: &Range<u64>, pair: &Pair) -> bool
    ensures { result ≡ changes_between span.now.start span.now.end pair.now.point pair.now.next }
{
    u64::from(pair.point.station) < span.end
        && span.start < u64::from(pair.next.station)
        && (pair.point.left != pair.next.left || pair.point.right != pair.next.right)
}

// The crossfall of the inner side of a turn.
fn inner_side(radius: i32, p: &Crossfall) -> i32
    ensures { result ≡ crossfall_of (inner radius) p.now }
{
    if 0 < radius { p.right } else { p.left }
}

// Whether one crossfall or slope is minus the other.
fn are_opposite(crossfall: i32, other: i64) -> bool
    ensures { result ≡ eq_z crossfall (neg_ℤ other) }
{
    other == -i64::from(crossfall)
}

fn is_superelevated(radius: i32, p: &Crossfall) -> bool
    ensures { result ≡ superelevated radius p.now }
{
    are_opposite(p.left, i64::from(p.right)) && inner_side(radius, p) < 0
}

fn is_crowned(l: &Limits, radius: i32, p: &Crossfall) -> bool
    ensures { result ≡ crowned l.now radius p.now }
{
    let crown = i64::from(l.crown);
    are_opposite(p.left, crown)
        && are_opposite(p.right, crown)
        && l.radius_both
            .is_some_and(|least| least <= radius.unsigned_abs())
}

#[tactic(auto, unfolding(road::specs::Rules::allowed))]
fn is_allowed(l: &Limits, radius: i32, p: &Crossfall) -> bool
    ensures { result ≡ allowed l.now radius p.now }
{
    is_superelevated(radius, p) || is_crowned(l, radius, p)
}

// What a point and the next show of an element between two stations.
#[tactic(auto, unfolding(crate::specs::Shown::shown_by))]
pub fn is_wrong(l: &Limits, e: &Element, span: &Range<u64>, pair: &Pair) -> bool
    ensures { result ≡ shown_by l.now e.now span.now.start span.now.end pair.now.point pair.now.next }
{
    e.is_arc()
        && (changes_between(span, pair)
            || (u64::from(pair.point.station) <= span.start
                && !is_allowed(l, e.radius, &pair.point)))
}
