// A station's places on the three lists of an accepted alignment, the segment there, and the next joint.

#![tactic(auto)]

ghost use Rattle.std.specs.Prelude.{◌≡◌, ℕ, ◌-◌, ◌≤◌, length};
ghost use Rattle.road.specs.Exact.{element_start, total};
ghost use Rattle.segment_parts.specs.Sides.{point_station};
ghost use Rattle.cursors.specs.Places.{Reached, ElementFound, TangentReached, ProfileFound, CrossfallFound, PlaceReached, PlaceFound};
ghost use Rattle.cursors.specs.View.{Viewed};

use accepted_road::AcceptedRoad;
use road::{Element, Tangent};
use segment::{Curvature, Piece, Segment, Sides};
use segment_parts::TangentPlace;

// An element: which it is, where it begins and ends, and its curvature.
#[derive(Clone, Copy)]
pub struct ElementPlace {
    pub index: usize,
    pub begin: u64,
    pub end: u64,
    pub curvature: Curvature,
}

// A tangent, and a piece of the profile that begins on it or on the one before.
#[derive(Clone, Copy)]
pub struct ProfilePlace {
    pub tangent: TangentPlace,
    pub piece: Piece,
}

// A crossfall point: which it is, where the next one stands, and from the one to the other.
#[derive(Clone, Copy)]
pub struct CrossfallPlace {
    pub index: usize,
    pub end: u64,
    pub sides: Sides,
}

// Where a station lies on the three lists. That it has reached a station stands in clauses: it is of a place and a later station, which no struct holds
// together.
#[derive(Clone, Copy)]
pub struct Place {
    pub element: ElementPlace,
    pub profile: ProfilePlace,
    pub crossfall: CrossfallPlace,
}

// A place, the segment there, and the station up to which the segment serves.
#[derive(Clone, Copy)]
pub struct View {
    pub place: Place,
    pub joint: u64,
    pub segment: Segment,
}

// ---- the three cursors, which only move forward
// They go on by index: a place keeps the index of its item, and `skip` from there would leave what goes on with it to a closure. Each keeps something
// else of its list: where an element begins; where a tangent begins, with its height; of a point its index alone.

// The last element that begins at or before x, from one that does.
fn element_from(road: &AcceptedRoad, first: usize, start: u64, x: u64) -> ElementPlace
    requires start_is { start ≡ element_start road.now first }
    requires reached { Reached (element_start road.now) (length road.now.plan) x first }
    ensures { ElementFound road.now result x }
{
    let elements = road.alignment().elements();
    let mut i = first;
    let mut begin = start;
    let mut e = elements[i];
    while i + 1 < elements.len() && begin + u64::from(e.length) <= x {
        begin += u64::from(e.length);
        i += 1;
        e = elements[i];
    }
    let before = elements[..i].last().copied().unwrap_or(Element::BLANK);
    let after = elements.get(i + 1).copied().unwrap_or(Element::BLANK);
    let curvature = segment_parts::curvature_of(before, e, after);
    ElementPlace {
        index: i,
        begin,
        end: begin + u64::from(e.length),
        curvature,
    }
}

// The last tangent that begins at or before x, from one that does, and the piece of the profile that has x.
fn profile_from(road: &AcceptedRoad, first: TangentPlace, x: u64) -> ProfilePlace
    requires { TangentReached road.now first x }
    ensures { ProfileFound road.now result x }
{
    let tangents = road.alignment().tangents();
    let mut tangent = first;
    let mut t = tangents[tangent.index];
    while tangent.index + 1 < tangents.len() && tangent.begin + u64::from(t.length) <= x {
        tangent = tangent.of(t).next();
        t = tangents[tangent.index];
    }
    let next = tangents
        .get(tangent.index + 1)
        .copied()
        .unwrap_or(Tangent::BLANK);
    let piece = tangent.of(t).piece(next, x);
    ProfilePlace { tangent, piece }
}

// The last crossfall point at or before x, of all but the road's last, from one that is.
fn crossfall_from(road: &AcceptedRoad, first: usize, x: u64) -> CrossfallPlace
    requires { Reached (point_station road.now) (length road.now.crossfalls - 1) x first }
    ensures { CrossfallFound road.now result x }
{
    let points = road.alignment().crossfalls();
    let mut i = first;
    let mut next = points[i + 1];
    while i + 2 < points.len() && u64::from(next.station) <= x {
        i += 1;
        next = points[i + 1];
    }
    CrossfallPlace {
        index: i,
        end: u64::from(next.station),
        sides: segment_parts::sides_of(points[i], next),
    }
}

// ---- the place of a station

// The place of station 0.
pub fn start(road: &AcceptedRoad) -> Place
    ensures { (x : ℕ) → PlaceReached road.now result x }
{
    let first = TangentPlace::first(road.alignment().start());
    let element = element_from(road, 0, 0, 0);
    let profile = profile_from(road, first, 0);
    let crossfall = crossfall_from(road, 0, 0);
    Place {
        element,
        profile,
        crossfall,
    }
}

// The place of x, from one at or before it: on each list it moves on where its own end is reached.
pub fn moved(road: &AcceptedRoad, p: Place, x: u64) -> Place
    requires { PlaceReached road.now p x }
    ensures { PlaceFound road.now result x }
{
    let element = if x < p.element.end {
        p.element
    } else {
        element_from(road, p.element.index, p.element.begin, x)
    };
    let profile = if x < p.profile.piece.end {
        p.profile
    } else {
        profile_from(road, p.profile.tangent, x)
    };
    let crossfall = if x < p.crossfall.end {
        p.crossfall
    } else {
        crossfall_from(road, p.crossfall.index, x)
    };
    Place {
        element,
        profile,
        crossfall,
    }
}

// ---- the view

// The place of x, the segment there, and the next joint.
pub fn view_at(road: &AcceptedRoad, p: Place, x: u64) -> View
    requires reached { PlaceReached road.now p x }
    requires on_road { x ≤ total road.now }
    ensures { Viewed road.now result x }
{
    let lane = road.lane();
    let place = moved(road, p, x);
    let e = place.element;
    let piece = place.profile.piece;
    let c = place.crossfall;
    View {
        place,
        joint: segment_parts::joint_of(piece.end, e.end, c.end, x),
        segment: segment_parts::segment_of(piece, c.sides, e.curvature, e.begin, lane),
    }
}
