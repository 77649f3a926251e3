// The limits of both rule books as tables of tables: a row for each speed, a column for each limit.

#![tactic(auto)]

ghost use Rattle.std.specs.Prelude.{◌≡◌, ℕ, ◌<◌, slice_index};
ghost use Rattle.road.specs.Limits.{class_number, terrain_number, speed_at, table, handbook, cell, limit_of_cell, is_old, radius_min_at, clothoid_at, limits_at, limits_of};

use road::{Class, Contract, Head, LeastClothoid, Limits, Terrain};

// The mark for "-", "no such rule": in the table it is the form that the project fixes; a limit that is read from the table is an Option.
pub const NO_RULE: u32 = 4294967295;

// Rows 40 to 100 km/h; straight max, straight min, R min, R', A min, arc min, grade max, sag R, crest R, lane; in mm, grade in ppm.
pub const LIMITS: [[u32; 10]; 7] = [
    [
        NO_RULE, NO_RULE, 45000, NO_RULE, 35000, 22000, 100000, 550000, 400000, 2750,
    ],
    [
        NO_RULE, NO_RULE, 75000, NO_RULE, 55000, 28000, 90000, 900000, 800000, 3000,
    ],
    [
        1200000, 120000, 120000, NO_RULE, 75000, 33000, 80000, 1250000, 1250000, 3000,
    ],
    [
        1400000, 140000, 175000, NO_RULE, 100000, 39000, 70000, 1800000, 2000000, 3250,
    ],
    [
        1600000, 160000, 250000, 2500000, 125000, 44000, 60000, 2500000, 3500000, 3250,
    ],
    [
        1800000, 180000, 350000, 2500000, 155000, 50000, 55000, 3250000, 5500000, 3500,
    ],
    [
        2000000, 200000, 450000, 3000000, 195000, 56000, 50000, 4250000, 8000000, 3500,
    ],
];

// The old handbook's rows 40 to 100 km/h: R min, least clothoid length; in mm.
pub const HANDBOOK: [[u32; 2]; 7] = [
    [45000, 30000],
    [75000, 40000],
    [120000, 50000],
    [180000, 60000],
    [250000, 70000],
    [350000, 90000],
    [450000, 100000],
];

// The first day of the rule book in force; contracts before it are under the old handbook.
pub const IN_FORCE_FROM: u32 = 20120101;

// Speed in km/h: a row for each class, a column for each terrain.
pub const SPEEDS: [[u32; 3]; 4] = [[100, 100, 80], [100, 80, 70], [80, 60, 50], [60, 50, 40]];

// The crossfalls of refusal 17, and that of refusal 19 on both sides, unsigned; in ppm, at every speed.
pub const CROSSFALL_MIN: u32 = 25000;

pub const CROSSFALL_MAX: u32 = 70000;

pub const CROWN: u32 = 25000;

// The row of a speed, which is a number and no enum, since `limits_at` answers for any number; past the rows it is zeros.
fn row_of<const COLUMNS: usize>(rows: &[[u32; COLUMNS]], speed: u32) -> [u32; COLUMNS]
    ensures { (column : ℕ) → column < COLUMNS → slice_index result column ≡ cell rows.now speed column }
{
    let row = (speed.saturating_sub(40) / 10) as usize;
    rows.get(row).copied().unwrap_or([0; COLUMNS])
}

// The limit that a cell holds, where it has one.
fn limit_of(cell: u32) -> Option<u32>
    ensures { result ≡ limit_of_cell cell }
{
    (cell != NO_RULE).then_some(cell)
}

// Whether a contract is under the old handbook.
fn is_old(contract: Contract) -> bool
    ensures { result ≡ is_old contract }
{
    matches!(contract, Contract::Dated(day) if day < IN_FORCE_FROM)
}

// The limits at a speed under a contract.
#[tactic(auto, unfolding(road::specs::Limits::radius_min_at, road::specs::Limits::clothoid_at, road::specs::Limits::limits_at))]
pub fn limits_at(speed: u32, contract: Contract) -> Limits
    ensures { result ≡ limits_at speed contract }
{
    let [
        straight_max,
        straight_min,
        radius_min,
        radius_both,
        parameter,
        arc_min,
        grade_max,
        sag_radius,
        crest_radius,
        lane,
    ] = row_of(&LIMITS, speed);
    let [old_radius_min, clothoid_length] = row_of(&HANDBOOK, speed);
    let old = is_old(contract);
    Limits {
        straight_max: limit_of(straight_max),
        straight_min: limit_of(straight_min),
        radius_min: if old { old_radius_min } else { radius_min },
        radius_both: limit_of(radius_both),
        clothoid: if old {
            LeastClothoid::Length(clothoid_length)
        } else {
            LeastClothoid::Parameter(parameter)
        },
        arc_min,
        grade_max,
        sag_radius,
        crest_radius,
        lane,
        crossfall_min: CROSSFALL_MIN,
        crossfall_max: CROSSFALL_MAX,
        crown: CROWN,
    }
}

// A class or a terrain, or the number by which a file names it; a number may be any.
pub trait Numbered: Copy {
    ghost use Rattle.std.specs.Prelude.{ℕ};

    ghost number: { Self → ℕ };

    fn number(self) -> u32
        ensures { result ≡ number self };
}

impl Numbered for u32 {
    ghost number = { λ n. n };

    fn number(self) -> u32 {
        self
    }
}

impl Numbered for Class {
    ghost number = { class_number };

    fn number(self) -> u32 {
        self.row() as u32 + 1
    }
}

impl Numbered for Terrain {
    ghost number = { terrain_number };

    fn number(self) -> u32 {
        self.column() as u32 + 1
    }
}

// The speed of a class and a terrain. The number 0 counts as 1, and past the table the speed is 0.
#[tactic(auto, unfolding(road::specs::Limits::speed_at))]
pub fn speed_of<C: Numbered, T: Numbered>(class: C, terrain: T) -> u32
    ensures { result ≡ speed_at (C.number class) (T.number terrain) }
{
    let row = class.number().saturating_sub(1) as usize;
    let column = terrain.number().saturating_sub(1) as usize;
    SPEEDS
        .get(row)
        .and_then(|speeds| speeds.get(column))
        .copied()
        .unwrap_or(0)
}

// The limits of a road, from its head.
#[tactic(auto, using(road::specs::Limits::named_speed), unfolding(road::specs::Limits::limits_of))]
pub fn limits_of(head: Head) -> Limits
    ensures { result ≡ limits_of head }
{
    limits_at(speed_of(head.class, head.terrain), head.contract)
}
