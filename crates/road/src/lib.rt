// The declared types that the definitions of specs/ speak of, an alignment and its lists, and what a file or a call is refused for.

#![tactic(auto)]

mod alignment;
mod kinds;
mod refusal;

pub use alignment::Alignment;
pub use refusal::{Fault, Refusal};

// What an element of the plan is. A file names the first three; `Other` is none of them, and no file has it.
#[derive(Clone, Copy, Debug, PartialEq, Eq)]
pub enum Kind {
    Straight,
    Arc,
    Clothoid,
    Other,
}

// An element of the plan. The radius of what is no arc is 0, which is no turn.
// Whether two elements turn the same way is a question of two numbers (`are_same_turn`); with the radius in `Kind::Arc` each such test would match two kinds first.
#[derive(Clone, Copy)]
pub struct Element {
    pub kind: Kind,
    pub length: u32,
    pub radius: i32,
}

impl Element {
    // What stands past either end of the plan, and fills an array: a rule asks of a neighbour as of any element, where with an Option each test would first ask whether there is one.
    pub const BLANK: Element = Element {
        kind: Kind::Straight,
        length: 0,
        radius: 0,
    };
}

// A tangent of the profile, with the half length of the vertical curve that follows it; 0 after the last.
#[derive(Clone, Copy)]
pub struct Tangent {
    pub length: u32,
    pub grade: i32,
    pub half: u32,
}

impl Tangent {
    // What stands past either end of the profile, and fills an array: a rule asks of a neighbour as of any tangent.
    pub const BLANK: Tangent = Tangent {
        length: 0,
        grade: 0,
        half: 0,
    };
}

// A crossfall point.
#[derive(Clone, Copy)]
pub struct Crossfall {
    pub station: u32,
    pub left: i32,
    pub right: i32,
}

impl Crossfall {
    // What stands past either end of the crossfall points, and fills an array: a rule asks of a neighbour as of any point.
    pub const BLANK: Crossfall = Crossfall {
        station: 0,
        left: 0,
        right: 0,
    };
}

// What a file says of its contract: no date, or the day on which it was made.
// An enum and not an Option: `Undated` and `Dated` are what a file can say, and a contract with granted exceptions would be a third case.
#[derive(Clone, Copy)]
pub enum Contract {
    Undated,
    Dated(u32),
}

// What refusal 12 asks of a clothoid: a least parameter A, or a least length.
#[derive(Clone, Copy)]
pub enum LeastClothoid {
    Parameter(u32),
    Length(u32),
}

// The class of a road, in the order of the table of speeds. A file names the first four; `Other` stands past the table, and no file has it.
#[derive(Clone, Copy, Debug, PartialEq, Eq)]
pub enum Class {
    LongDistance,
    Connecting,
    Collecting,
    Access,
    Other,
}

// The terrain, in the order of the table of speeds. A file names the first three; `Other` stands past the table, and no file has it.
#[derive(Clone, Copy, Debug, PartialEq, Eq)]
pub enum Terrain {
    Flat,
    Hilly,
    Mountain,
    Other,
}

// What a file says before its three lists.
#[derive(Clone, Copy)]
pub struct Head {
    pub contract: Contract,
    pub class: Class,
    pub terrain: Terrain,
    pub step: u32,
    pub ramp: u32,
}

// What the rules and the drop ask of the rule book: the row of a speed, where three limits may be missing, and the crossfalls of refusals 17 and 19.
#[derive(Clone, Copy)]
pub struct Limits {
    pub straight_max: Option<u32>,
    pub straight_min: Option<u32>,
    pub radius_min: u32,
    pub radius_both: Option<u32>,
    pub clothoid: LeastClothoid,
    pub arc_min: u32,
    pub grade_max: u32,
    pub sag_radius: u32,
    pub crest_radius: u32,
    pub lane: u32,
    pub crossfall_min: u32,
    pub crossfall_max: u32,
    pub crown: u32,
}

// An element with its place, its list's count, where it ends, the two before it and the one after it; past either end of a list stands the blank item.
// Three structs for the three lists, since the rules of each ask something else beside the neighbours.
#[derive(Clone, Copy)]
pub struct ElementAmong {
    pub place: usize,
    pub count: usize,
    pub end: u64,
    pub earlier: Element,
    pub before: Element,
    pub element: Element,
    pub after: Element,
}

// A tangent with those beside it: its rules ask nothing else.
#[derive(Clone, Copy)]
pub struct TangentAmong {
    pub before: Tangent,
    pub tangent: Tangent,
    pub after: Tangent,
}

// A crossfall point with its place, its list's count, the plan length T, the ramp limit, and those beside it.
#[derive(Clone, Copy)]
pub struct PointAmong {
    pub place: usize,
    pub count: usize,
    pub whole: u64,
    pub ramp: u32,
    pub before: Crossfall,
    pub point: Crossfall,
    pub after: Crossfall,
}

// The rules of an element with those beside it, each with the refusal's number.
#[derive(Clone, Copy, Debug, PartialEq, Eq)]
pub enum ElementRule {
    PlanLength = 5,
    Kinds = 7,
    LinkedArcs = 23,
    LongStraight = 8,
    TightArc = 10,
    ShortArc = 11,
    ShortClothoid = 12,
}

// The rules of a tangent with those beside it, each with the refusal's number.
#[derive(Clone, Copy, Debug, PartialEq, Eq)]
pub enum TangentRule {
    SteepTangent = 13,
    ShortTangent = 14,
    SharpVertex = 15,
}

// The rules of a crossfall point with those beside it, each with the refusal's number.
#[derive(Clone, Copy, Debug, PartialEq, Eq)]
pub enum PointRule {
    MisplacedPoint = 16,
    WrongCrossfall = 17,
    SteepRamp = 18,
}

// The rules of a road: those of the items of one list, and three that look further.
#[derive(Clone, Copy, Debug, PartialEq, Eq)]
pub enum Rule {
    Element(ElementRule),
    OtherTotal,
    ShortStraight,
    Tangent(TangentRule),
    Point(PointRule),
    Superelevation,
}
