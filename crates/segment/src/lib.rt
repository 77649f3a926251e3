// The printed numbers and the line of a station, from the numbers of the segment that it lies on.

#![tactic(auto)]

ghost use Rattle.std.specs.Prelude.{◌≡◌, ◌+◌, ◌*◌, ◌-◌, ◌≤◌, ◌<◌, pos, ◌+ℤ◌, ◌-ℤ◌, ◌*ℤ◌, nat_abs, length};
ghost use Rattle.integers.specs.Fraction.{◌÷◌, ◌+ᶠ◌, ◌×ᶠ◌};
ghost use Rattle.integers.specs.Rounding.{nearest_size, rounded};
ghost use Rattle.decimal.specs.Written.{Wrote};
ghost use Rattle.segment.specs.Segment.{Sound, past, value_of, height_in, grade_in, curvature_in, numbers_in, list_of, line_in};
ghost use Rattle.segment.specs.Sizes.{InCurve, OfEnd, OnEgg, egg_over, egg_under, OfLane, OnSide, lane_of};

// The straight part of a tangent or a vertical curve.
#[derive(Clone, Copy)]
pub struct Piece {
    // where the tangent or the vertical curve begins
    pub from: i64,
    // the height there, in millionths of a millimetre, and the grade there
    pub height: i64,
    pub grade: i64,
    // the change of grade and the half length of the vertical curve; 0 and 0 on a tangent, as the file has a half length of 0 where a vertex has no curve:
    // an Option would be made from that 0 for each piece
    pub change: i64,
    pub half: i64,
    // the station where the piece ends
    pub end: u64,
}

// The crossfall of a side at a crossfall point, and its change up to the next point.
#[derive(Clone, Copy)]
pub struct Ramp {
    pub start: i64,
    pub change: i64,
}

// A crossfall point, the distance to the next, and the crossfalls of both sides.
#[derive(Clone, Copy)]
pub struct Sides {
    pub point: i64,
    pub span: i64,
    pub left: Ramp,
    pub right: Ramp,
}

// No line is longer than this.
pub const LINE_BYTES: usize = 96;

// The curvature at an end of an element, turn / radius: of an arc 10⁹ with the radius' sign over the radius' size, of a straight 0 over 1.
// An element is its two ends, whatever it is: an enum of straight, arc, egg and both clothoids would name in five cases what two tests of 0 tell.
#[derive(Clone, Copy)]
pub struct End {
    pub turn: i64,
    pub radius: i64,
}

// The curvature of an element of a length, at its start and at its end.
#[derive(Clone, Copy)]
pub struct Curvature {
    pub length: i64,
    pub start: End,
    pub end: End,
}

// A segment of the road, with no joint inside, as numbers only: all that the rows up to its end need.
#[derive(Clone, Copy)]
pub struct Segment {
    pub piece: Piece,
    pub sides: Sides,
    pub lane: i64,
    // where the element begins
    pub element: i64,
    pub curvature: Curvature,
}

// The eight numbers of a row.
#[derive(Clone, Copy)]
pub struct Numbers {
    pub station: i64,
    pub height: i64,
    pub grade: i64,
    pub left: i64,
    pub right: i64,
    pub left_edge: i64,
    pub right_edge: i64,
    pub curvature: i64,
}

// A side's crossfall and its edge's drop.
#[derive(Clone, Copy)]
pub struct Lane {
    pub crossfall: i64,
    pub drop: i64,
}

// The distance from a place to a station.
fn distance(from: i64, x: u64) -> i64
    requires station_small { x ≤ 100000000 }
    requires near { nat_abs (past from x) ≤ 1000000000 }
    ensures { result ≡ past from x }
{
    x as i64 - from
}

// What stands at a distance, where it changes evenly from the start on.
fn along(start: i64, slope: i64, distance: i64) -> i64
    requires { nat_abs start + nat_abs slope * nat_abs distance < 9223372036854775808 }
    ensures { result ≡ start +ℤ slope *ℤ distance }
{
    start + slope * distance
}

impl Piece {
    // The height u past the start of a vertical curve, whose first tangent, prolonged, is there at `line` millionths.
    fn curve_height(&self, line: i64, u: i64) -> i64
        requires { InCurve 27240000000000 line self.now.change self.now.half u }
        ensures { result ≡ rounded ((line *ℤ pos (4 * nat_abs self.now.half) +ℤ self.now.change *ℤ (u *ℤ u)) ÷ (4 * nat_abs self.now.half * 1000000)) }
    {
        let deviation = self.change * (u * u);
        let scale = 4 * self.half;
        let raised = line + integers::div_floor(deviation, scale);
        // what the two divisions leave, over 4h × 10⁶
        let rest = integers::rem_floor(raised, 1_000_000) * scale
            + integers::rem_floor(deviation, scale);
        integers::round_parts(
            integers::div_floor(raised, 1_000_000),
            rest,
            scale * 1_000_000,
        )
    }

    // The grade u past the start of a vertical curve.
    fn curve_grade(&self, u: i64) -> i64
        requires { InCurve 120000 self.now.grade self.now.change self.now.half u }
        ensures { result ≡ rounded ((self.now.grade *ℤ pos (2 * nat_abs self.now.half) +ℤ self.now.change *ℤ u) ÷ (2 * nat_abs self.now.half)) }
    {
        let length = 2 * self.half;
        integers::round_div(along(self.grade * length, self.change, u), length)
    }
}

impl Sides {
    // The drop of an edge, from the exact crossfall, which is `over` over the span.
    fn drop_of(&self, over: i64, width: i64) -> i64
        requires { OfLane over self.now.span width }
        ensures { result ≡ rounded ((over *ℤ width) ÷ (nat_abs self.now.span * 1000000)) }
    {
        integers::round_div(over * width, self.span * 1_000_000)
    }

    // A side's two numbers at a distance past the crossfall point.
    fn lane_at(&self, side: Ramp, width: i64, distance: i64) -> Lane
        requires { OnSide side self.now.span width distance }
        ensures { result ≡ lane_of side self.now.span width distance }
    {
        // an even crossfall needs no division by the span
        if side.change == 0 {
            return Lane {
                crossfall: side.start,
                drop: integers::round_div(side.start * width, 1_000_000),
            };
        }
        let over = along(side.start * self.span, side.change, distance);
        Lane {
            crossfall: integers::round_div(over, self.span),
            drop: self.drop_of(over, width),
        }
    }
}

impl End {
    // What it gives at a distance from the element's other end: evenly from 0 there to the curvature here.
    fn share(self, length: i64, distance: i64) -> i64
        requires { OfEnd self length distance }
        ensures { result ≡ rounded (value_of self ×ᶠ (distance ÷ nat_abs length)) }
    {
        integers::round_div(self.turn * distance, self.radius * length)
    }
}

impl Curvature {
    // The size of an egg's curvature. Its fraction does not fit; what each end gives does, and so do both rests over one denominator.
    fn egg_size(&self, past: u64) -> u64
        requires { OnEgg self.now (pos past) }
        ensures value { result ≡ nearest_size (egg_over self.now past) (egg_under self.now) }
        ensures most { result ≤ 1000000000 }
    {
        let turn = self.start.turn.unsigned_abs();
        let first = self.start.radius.unsigned_abs();
        let second = self.end.radius.unsigned_abs();
        let length = self.length.unsigned_abs();
        let from_start = turn * (length - past);
        let from_end = turn * past;
        let under_start = first * length;
        let under_end = second * length;
        integers::nearest_sum(
            from_start / under_start + from_end / under_end,
            from_start % under_start * second,
            from_end % under_end * first,
            first * under_end,
        )
    }

    // The curvature on an egg, evenly from one end's to the other's: the sign is taken off, the size rounded, and the sign put back.
    fn egg(&self, past: i64) -> i64
        requires { OnEgg self.now past }
        ensures { result ≡ rounded (value_of self.now.start ×ᶠ ((self.now.length -ℤ past) ÷ nat_abs self.now.length) +ᶠ value_of self.now.end ×ᶠ (past ÷ nat_abs self.now.length)) }
    {
        let size = self.egg_size(past.unsigned_abs()) as i64;
        if self.start.turn < 0 { -size } else { size }
    }
}

impl Numbers {
    // In the order of a line, which `From` would not say.
    fn in_order(self) -> [i64; 8]
        ensures { result ≡ list_of self }
    {
        [
            self.station,
            self.height,
            self.grade,
            self.left,
            self.right,
            self.left_edge,
            self.right_edge,
            self.curvature,
        ]
    }
}

// A station on a segment.
#[derive(Clone, Copy)]
pub struct OnSegment<'a> {
    pub segment: &'a Segment,
    pub station: u64,
    ghost sound: { Sound segment.now station },
}

impl Segment {
    // A station here.
    pub fn at(&self, station: u64) -> OnSegment<'_>
        requires { Sound self.now station }
        ensures segment { result.segment.now ≡ self.now }
        ensures station { result.station ≡ station }
    {
        OnSegment {
            segment: self,
            station,
        }
    }
}

impl<'a> OnSegment<'a> {
    // The height.
    pub fn height(self) -> i64
        ensures { result ≡ rounded (height_in self.entry.segment.now self.entry.station) }
    {
        let piece = self.segment.piece;
        let u = distance(piece.from, self.station);
        let line = along(piece.height, piece.grade, u);
        if piece.half == 0 {
            integers::round_div(line, 1_000_000)
        } else {
            piece.curve_height(line, u)
        }
    }

    // The grade.
    pub fn grade(self) -> i64
        ensures { result ≡ rounded (grade_in self.entry.segment.now self.entry.station) }
    {
        let piece = self.segment.piece;
        if piece.half == 0 {
            piece.grade
        } else {
            piece.curve_grade(distance(piece.from, self.station))
        }
    }

    // The curvature.
    pub fn curvature(self) -> i64
        ensures { result ≡ rounded (curvature_in self.entry.segment.now self.entry.station) }
    {
        let curvature = self.segment.curvature;
        let past = distance(self.segment.element, self.station);
        if curvature.start.turn == 0 {
            // a straight needs no division
            if curvature.end.turn == 0 {
                return 0;
            }
            return curvature.end.share(curvature.length, past);
        }
        if curvature.end.turn == 0 {
            return curvature
                .start
                .share(curvature.length, curvature.length - past);
        }
        if curvature.start.radius == curvature.end.radius {
            // the same arc at both ends
            return integers::round_div(curvature.start.turn, curvature.start.radius);
        }
        curvature.egg(past)
    }

    // The printed numbers.
    pub fn numbers(self) -> Numbers
        ensures { result ≡ numbers_in self.entry.segment.now self.entry.station }
    {
        let sides = self.segment.sides;
        let lane = self.segment.lane;
        let u = distance(sides.point, self.station);
        let left = sides.lane_at(sides.left, lane, u);
        let right = sides.lane_at(sides.right, lane, u);
        let height = self.height();
        Numbers {
            station: self.station as i64,
            height,
            grade: self.grade(),
            left: left.crossfall,
            right: right.crossfall,
            left_edge: height + left.drop,
            right_edge: height + right.drop,
            curvature: self.curvature(),
        }
    }

    // Writes the line, and returns its length.
    pub fn put_line(self, out: &mut [u8]) -> usize
        requires { 96 ≤ length out.old }
        ensures wrote { Wrote out.old out.new 0 (line_in self.entry.segment.now self.entry.station) result }
        ensures most { result ≤ 96 }
    {
        let mut end = 0;
        for v in self.numbers().in_order() {
            end += decimal::put_field(&mut out[end..], v, b' ');
        }
        out[end - 1] = b'\n';
        end
    }
}
