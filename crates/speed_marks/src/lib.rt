// Which speeds a road would pass: the file is read once, and judged under the limits of each of the seven speeds.

#![tactic(auto)]

ghost use Rattle.std.specs.Prelude.{◌≡◌};
ghost use Rattle.road.specs.Faults.{of_result};
ghost use Rattle.speed_marks.specs.Marks.{stands, marks, marks_answer};

use road::{Alignment, Refusal};

// The speeds in km/h, in the order of the marks.
pub const TRIED_SPEEDS: [u32; 7] = [40, 50, 60, 70, 80, 90, 100];

// Whether a road passes at a speed.
#[tactic(auto, unfolding(crate::specs::Marks::stands))]
fn passes(a: &Alignment, speed: u32) -> bool
    ensures { result ≡ stands a.now speed }
{
    let limits = limits::limits_at(speed, a.head().contract);
    rules::judge(a, &limits).is_ok()
}

// The marks of a road, 40 km/h in the lowest bit.
fn marks_of(a: &Alignment) -> u32
    ensures { result ≡ marks a.now }
{
    let mut set = 0;
    for (bit, speed) in TRIED_SPEEDS.iter().enumerate() {
        set += u32::from(passes(a, *speed)) << bit;
    }
    set
}

// Refusals 1 to 4 and 22 of a file, or its seven marks, 40 km/h in the lowest bit.
#[tactic(auto, unfolding(crate::specs::Marks::marks_answer))]
pub fn marks(file: &[u8]) -> Result<u32, Refusal>
    ensures { of_result result ≡ marks_answer file.now }
{
    Ok(marks_of(&alignment::read(file)?))
}
