// The rules of the profile: tests of a tangent with those beside it.

ghost use Rattle.std.specs.Prelude.{◌≡◌, ◌≤◌, ◌-ℤ◌};
ghost use Rattle.road.specs.Rules.{steep_tangent, short_tangent, vertical_radius, sharp_vertex, tangent_test};

use crate::ItemRule;
use road::{Limits, Tangent, TangentAmong, TangentRule};

// Refusal 13: a grade, unsigned, is over grade max.
fn is_steep_tangent(l: &Limits, t: &Tangent) -> bool
    ensures { result ≡ steep_tangent l.now t.now }
{
    l.grade_max < t.grade.unsigned_abs()
}

// Refusal 14: a tangent is shorter than the half lengths at its ends together.
fn is_short_tangent(before: &Tangent, t: &Tangent) -> bool
    ensures { result ≡ short_tangent before.now t.now }
{
    u64::from(t.length) < u64::from(before.half) + u64::from(t.half)
}

// That of a sag where the grade rises, else that of a crest.
fn vertical_radius(l: &Limits, t: &Tangent, after: &Tangent) -> u32
    ensures { result ≡ vertical_radius l.now (after.now.grade -ℤ t.now.grade) }
{
    if t.grade < after.grade {
        l.sag_radius
    } else {
        l.crest_radius
    }
}

// Refusal 15: 2h × 10⁶ is below the vertical radius times the change of grade.
#[tactic(auto, unfolding(road::specs::Rules::sharp_vertex))]
fn is_sharp_vertex(l: &Limits, t: &Tangent, after: &Tangent) -> bool
    ensures { result ≡ sharp_vertex l.now t.now after.now }
{
    let radius = u64::from(vertical_radius(l, t, after));
    2 * u64::from(t.half) * 1_000_000 < radius * u64::from(after.grade.abs_diff(t.grade))
}

impl ItemRule for TangentRule {
    type Item = TangentAmong;

    ghost test = { tangent_test };

    fn places(self, count: usize) -> usize
        ensures places { result ≡ (tangent_test self).places count }
        ensures within { result ≤ count }
    {
        match self {
            TangentRule::SharpVertex => count.saturating_sub(1),
            _ => count,
        }
    }

    fn is_broken(self, l: &Limits, t: &TangentAmong) -> bool {
        match self {
            TangentRule::SteepTangent => is_steep_tangent(l, &t.tangent),
            TangentRule::ShortTangent => is_short_tangent(&t.before, &t.tangent),
            TangentRule::SharpVertex => is_sharp_vertex(l, &t.tangent, &t.after),
        }
    }
}
