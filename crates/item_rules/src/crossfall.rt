// The rules of the crossfall points: tests of a point with those beside it.

ghost use Rattle.std.specs.Prelude.{◌≡◌, ◌≤◌};
ghost use Rattle.road.specs.Rules.{misplaced, wrong_side, wrong_crossfall, steep_ramp, point_test, not_beyond};

use crate::ItemRule;
use road::{Crossfall, Limits, PointAmong, PointRule};

// Whether a point is not at 0, the first, or not beyond its forerunner.
fn is_not_beyond(p: &PointAmong) -> bool
    ensures { result ≡ not_beyond p.now.place p.now.before p.now.point }
{
    if p.place == 0 {
        p.point.station != 0
    } else {
        p.point.station <= p.before.station
    }
}

// Refusal 16: point 0 not at 0, a point not beyond the one before it, or the last not at T.
#[tactic(auto, unfolding(road::specs::Rules::misplaced))]
fn is_misplaced(p: &PointAmong) -> bool
    ensures { result ≡ misplaced p.now.place p.now.count p.now.whole p.now.before p.now.point }
{
    let last = p.count.saturating_sub(p.place) == 1;
    is_not_beyond(p) || (last && u64::from(p.point.station) != p.whole)
}

// Refusal 17, of a side: a crossfall, unsigned, is below 25,000 or above 70,000.
#[tactic(auto, unfolding(road::specs::Rules::wrong_side))]
fn is_wrong_side(l: &Limits, crossfall: i32) -> bool
    ensures { result ≡ wrong_side l.now crossfall }
{
    let size = crossfall.unsigned_abs();
    size < l.crossfall_min || l.crossfall_max < size
}

#[tactic(auto, unfolding(road::specs::Rules::wrong_crossfall))]
fn is_wrong_crossfall(l: &Limits, p: &Crossfall) -> bool
    ensures { result ≡ wrong_crossfall l.now p.now }
{
    is_wrong_side(l, p.left) || is_wrong_side(l, p.right)
}

// Refusal 18: lane width times the change of a side's crossfall exceeds ramp limit times the distance to the next point.
#[tactic(auto, unfolding(road::specs::Rules::steep_ramp))]
fn is_steep_ramp(lane: u32, p: &PointAmong) -> bool
    ensures { result ≡ steep_ramp lane p.now.ramp p.now.point p.now.after }
{
    let distance = p.after.station.saturating_sub(p.point.station);
    let most = u64::from(p.ramp) * u64::from(distance);
    let is_steep = |from: i32, to: i32| most < u64::from(lane) * u64::from(to.abs_diff(from));
    is_steep(p.point.left, p.after.left) || is_steep(p.point.right, p.after.right)
}

impl ItemRule for PointRule {
    type Item = PointAmong;

    ghost test = { point_test };

    fn places(self, count: usize) -> usize
        ensures places { result ≡ (point_test self).places count }
        ensures within { result ≤ count }
    {
        match self {
            PointRule::SteepRamp => count.saturating_sub(1),
            _ => count,
        }
    }

    fn is_broken(self, l: &Limits, p: &PointAmong) -> bool {
        match self {
            PointRule::MisplacedPoint => is_misplaced(p),
            PointRule::WrongCrossfall => is_wrong_crossfall(l, &p.point),
            PointRule::SteepRamp => is_steep_ramp(l.lane, p),
        }
    }
}
