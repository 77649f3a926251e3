// Any list of calls of the two routines on one file and one buffer, with all that is seen after each call written down.

#![tactic(auto)]

ghost use Rattle.std.specs.Prelude.{◌≡◌, ◌+◌, ◌*◌, ℕ, eqb, is_ok, length, OnErr, OnOk};
ghost use Rattle.file_numbers.specs.Reading.{refused};
ghost use Rattle.road.specs.Rules.{accepted};
ghost use Rattle.road.specs.Machine.{step};
ghost use Rattle.runs.specs.Calls.{call_of};
ghost use Rattle.runs.specs.Answers.{asks_row, answers_row, answer_of};
ghost use Rattle.runs.specs.Recorded.{Recorded, RoutinesRecorded, sized};
ghost use Rattle.runs.specs.RecordedRows.{BladeRecorded, TurnedAway};
ghost use Rattle.runs.specs.Listing.{ListingRecorded};

use road::Refusal;

// A call: for the row of a station, or for the least listed station not below one.
#[derive(Clone, Copy)]
pub enum Call {
    Row(u64),
    Next(u64),
}

// What a call answered.
#[derive(Clone, Copy)]
pub enum Answer {
    Row(Result<usize, Refusal>),
    Next(Result<Option<u64>, Refusal>),
}

// The slices lent to a run do not have the sizes that its record takes.
#[derive(Clone, Copy, Debug)]
pub struct OtherSizes;

impl Call {
    // The call's answer; a row goes over the first bytes of the line.
    #[tactic(auto, unfolding(road::specs::Machine::step))]
    pub fn answer(self, file: &[u8], line: &mut [u8]) -> Answer
        ensures value { answer_of result ≡ (step file.now line.old (call_of self)).answer }
        ensures routine { answers_row result ≡ asks_row (call_of self) }
        ensures line_after { line.new ≡ (step file.now line.old (call_of self)).buffer }
    {
        match self {
            Call::Row(station) => Answer::Row(stationing::row(file, station, line)),
            Call::Next(station) => Answer::Next(stationing::next_station(file, station)),
        }
    }
}

// The calls one after the other, each with the line as the last one left it. After each call its answer is written down, and every byte of the
// line behind those of the calls before.
fn run_sized(
    file: &[u8],
    calls: &[Call],
    line: &mut [u8],
    answers: &mut [Answer],
    frames: &mut [u8],
)
    requires answers { length answers.old ≡ length calls.now }
    requires frames { length frames.old ≡ length calls.now * length line.old }
    ensures recorded { Recorded file.now line.old calls.now line.new answers.new frames.new }
    ensures routines { RoutinesRecorded calls.now answers.new }
    ensures blade { BladeRecorded file.now (length line.old) calls.now answers.new frames.new }
    ensures listing { ListingRecorded file.now line.old calls.now answers.new frames.new }
    ensures refused { (n p : ℕ) → accepted file.now ≡ refused n p → TurnedAway n p line.old calls.now line.new answers.new frames.new }
{
    let size = line.len();
    // by place: a chain over the two lent slices was tried, and the proof knew no item of what it wrote
    for (k, call) in calls.iter().enumerate() {
        answers[k] = call.answer(file, line);
        let at = k * size;
        frames[at..at + size].copy_from_slice(line);
    }
}

// The calls one after the other on one file and one line, written down; where what is lent does not have the sizes that the record takes, nothing is done.
// Five parameters: a struct of the slices that are lent would be made for a call and taken apart in it.
pub fn run(
    file: &[u8],
    calls: &[Call],
    line: &mut [u8],
    answers: &mut [Answer],
    frames: &mut [u8],
) -> Result<(), OtherSizes>
    ensures sized { is_ok result ≡ sized (length calls.now) (length answers.old) (length line.old) (length frames.old) }
    ensures recorded { OnOk result (Recorded file.now line.old calls.now line.new answers.new frames.new) }
    ensures routines { OnOk result (RoutinesRecorded calls.now answers.new) }
    ensures blade { OnOk result (BladeRecorded file.now (length line.old) calls.now answers.new frames.new) }
    ensures listing { OnOk result (ListingRecorded file.now line.old calls.now answers.new frames.new) }
    ensures refused { OnOk result ((n p : ℕ) → accepted file.now ≡ refused n p → TurnedAway n p line.old calls.now line.new answers.new frames.new) }
    ensures untouched { OnErr result ((line.new ≡ line.old) × (answers.new ≡ answers.old) × (frames.new ≡ frames.old)) }
{
    let count = calls.len();
    if answers.len() != count || count.checked_mul(line.len()) != Some(frames.len()) {
        return Err(OtherSizes);
    }
    run_sized(file, calls, line, answers, frames);
    Ok(())
}
