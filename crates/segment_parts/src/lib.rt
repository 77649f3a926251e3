// The parts of a segment, each made of the items that it needs.

#![tactic(auto)]

ghost use Rattle.std.specs.Prelude.{◌≡◌, ◌≤◌, pos, nat_abs, ◌-ℤ◌, ◌*ℤ◌};
ghost use Rattle.segment_parts.specs.Tangents.{first_place, next_place, SizedPlace};
ghost use Rattle.segment_parts.specs.Pieces.{curve_from, curve_before, curve_after, straight_part, PieceFrom};
ghost use Rattle.segment_parts.specs.Sides.{ramp_of, sides_of};
ghost use Rattle.segment_parts.specs.Ends.{end_of, curvature_of};
ghost use Rattle.segment_parts.specs.Segments.{segment_of, joint_of};

use road::{Crossfall, Element, Tangent};
use segment::{Curvature, End, Piece, Ramp, Segment, Sides};

// The place of a tangent: which it is, where it begins, the height there in millionths of a millimetre, and the half length and the grade before it.
#[derive(Clone, Copy)]
pub struct TangentPlace {
    pub index: usize,
    pub begin: u64,
    pub height: i64,
    pub half_before: u32,
    pub grade_before: i32,
}

// A tangent at its place.
#[derive(Clone, Copy)]
pub struct PlacedTangent {
    pub place: TangentPlace,
    pub tangent: Tangent,
    ghost sized: { SizedPlace place tangent },
}

// ---- the profile

// What a grade rises on a length, in millionths.
fn rise(grade: i32, length: u32) -> i64
    ensures { result ≡ grade *ℤ pos length }
{
    i64::from(grade) * i64::from(length)
}

// A vertical curve between two grades, from a station and a height on. Five parameters: a struct of them would be the piece itself.
fn curve_from(from: u64, height: i64, first: i32, second: i32, half: u32) -> Piece
    requires { from ≤ 200000000 }
    ensures { result ≡ curve_from from height first second half }
{
    Piece {
        from: from as i64,
        height,
        grade: i64::from(first),
        change: i64::from(second) - i64::from(first),
        half: i64::from(half),
        end: from + 2 * u64::from(half),
    }
}

impl TangentPlace {
    // The place of the first tangent, from the start height.
    pub fn first(start: i32) -> Self
        requires { nat_abs start ≤ 3000000 }
        ensures { result ≡ first_place start }
    {
        TangentPlace {
            index: 0,
            begin: 0,
            height: rise(start, 1_000_000),
            half_before: 0,
            grade_before: 0,
        }
    }

    // The tangent that stands here.
    pub fn of(self, tangent: Tangent) -> PlacedTangent
        requires { SizedPlace self tangent }
        ensures place { result.place ≡ self }
        ensures tangent { result.tangent ≡ tangent }
    {
        PlacedTangent {
            place: self,
            tangent,
        }
    }
}

impl PlacedTangent {
    // The place of the tangent after it.
    pub fn next(self) -> TangentPlace
        ensures { result ≡ next_place self.place self.tangent }
    {
        let t = self.tangent;
        TangentPlace {
            index: self.place.index + 1,
            begin: self.place.begin + u64::from(t.length),
            height: self.place.height + rise(t.grade, t.length),
            half_before: t.half,
            grade_before: t.grade,
        }
    }

    // The vertical curve at its start.
    fn curve_before(self) -> Piece
        ensures { result ≡ curve_before self.place self.tangent }
    {
        let half = self.place.half_before;
        let grade = self.place.grade_before;
        let back = rise(grade, half);
        curve_from(
            self.place.begin - u64::from(half),
            self.place.height - back,
            grade,
            self.tangent.grade,
            half,
        )
    }

    // Its straight part.
    fn straight_part(self) -> Piece
        ensures { result ≡ straight_part self.place self.tangent }
    {
        let t = self.tangent;
        Piece {
            from: self.place.begin as i64,
            height: self.place.height,
            grade: i64::from(t.grade),
            change: 0,
            half: 0,
            end: self.place.begin + u64::from(t.length - t.half),
        }
    }

    // The vertical curve at its end.
    fn curve_after(self, next: Tangent) -> Piece
        ensures { result ≡ curve_after self.place self.tangent next }
    {
        let t = self.tangent;
        let far = t.length - t.half;
        let ahead = rise(t.grade, far);
        curve_from(
            self.place.begin + u64::from(far),
            self.place.height + ahead,
            t.grade,
            next.grade,
            t.half,
        )
    }

    // The piece of the profile that has x, where the tangent is the last that begins at or before x.
    pub fn piece(self, next: Tangent, x: u64) -> Piece
        ensures { PieceFrom self.place self.tangent next x result }
    {
        let begin = self.place.begin;
        let t = self.tangent;
        if x < begin + u64::from(self.place.half_before) {
            return self.curve_before();
        }
        if x < begin + u64::from(t.length - t.half) || t.half == 0 {
            return self.straight_part();
        }
        self.curve_after(next)
    }
}

// ---- the crossfalls

// A side from one crossfall to the next.
fn ramp_of(first: i32, second: i32) -> Ramp
    ensures { result ≡ ramp_of first second }
{
    Ramp {
        start: i64::from(first),
        change: i64::from(second) - i64::from(first),
    }
}

// From a crossfall point to the next.
pub fn sides_of(c: Crossfall, d: Crossfall) -> Sides
    ensures { result ≡ sides_of c d }
{
    Sides {
        point: i64::from(c.station),
        span: i64::from(d.station) - i64::from(c.station),
        left: ramp_of(c.left, d.left),
        right: ramp_of(c.right, d.right),
    }
}

// ---- the curvature

// What an element has where it meets a clothoid, and all along: an arc its own curvature, any other 0.
fn end_of(e: Element) -> End
    ensures { result ≡ end_of e }
{
    if !e.is_arc() {
        return End { turn: 0, radius: 1 };
    }
    End {
        turn: if e.radius < 0 {
            -1_000_000_000
        } else {
            1_000_000_000
        },
        radius: i64::from(e.radius.unsigned_abs()),
    }
}

// The curvature of an element, from the one before it and the one after it.
pub fn curvature_of(before: Element, e: Element, after: Element) -> Curvature
    ensures { result ≡ curvature_of before e after }
{
    let length = i64::from(e.length);
    if e.is_clothoid() {
        return Curvature {
            length,
            start: end_of(before),
            end: end_of(after),
        };
    }
    let own = end_of(e);
    Curvature {
        length,
        start: own,
        end: own,
    }
}

// ---- the segment, and the next joint

// The segment of a piece of the profile, a pair of crossfall points and an element that begins at a station.
pub fn segment_of(
    piece: Piece,
    sides: Sides,
    curvature: Curvature,
    element: u64,
    lane: u32,
) -> Segment
    requires { element ≤ 100000000 }
    ensures { result ≡ segment_of piece sides curvature element lane }
{
    Segment {
        piece,
        sides,
        lane: i64::from(lane),
        element: element as i64,
        curvature,
    }
}

// The first station behind x that the segment there does not serve: the least of the three ends. Where the element ends at x, x is T, and that is T + 1.
pub fn joint_of(piece: u64, element: u64, point: u64, x: u64) -> u64
    requires { x ≤ 100000000 }
    ensures { result ≡ joint_of piece element point x }
{
    if element <= x {
        return x + 1;
    }
    piece.min(element.min(point))
}
