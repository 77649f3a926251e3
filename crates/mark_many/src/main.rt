// Makes 20,000 calls of one kind on a file, a bit of it turned between calls, and prints the sum of their answers: for measuring.
// Standard input has a letter and then the file: r reads it, m reads it and gives its marks, j judges its road at each of the seven speeds.

#![tactic(auto)]

ghost use Rattle.std.specs.Prelude.{◌≤◌, IfSome};

use road::Alignment;
use speed_marks::TRIED_SPEEDS;

const CALLS: u64 = 20000;

// What is measured; any other letter gives marks.
enum Measured {
    Read,
    Mark,
    Judge,
}

impl From<u8> for Measured {
    fn from(letter: u8) -> Measured {
        match letter {
            b'r' => Measured::Read,
            b'j' => Measured::Judge,
            _ => Measured::Mark,
        }
    }
}

// How many elements are read.
fn read(file: &[u8]) -> Option<u64>
    ensures { IfSome result (λ n. n ≤ 200) }
{
    alignment::read(file)
        .ok()
        .map(|a| a.elements().len() as u64)
}

// The marks.
#[tactic(auto, using(crate::proofs::Few::few))]
fn marked(file: &[u8]) -> Option<u64>
    ensures { IfSome result (λ set. set ≤ 127) }
{
    speed_marks::marks(file).ok().map(u64::from)
}

// At how many of the seven speeds a road passes; then its step is changed by one.
fn judged(a: &mut Alignment) -> u64
    ensures { result ≤ 7 }
{
    let mut head = a.head();
    let passed = TRIED_SPEEDS
        .iter()
        .filter(|speed| rules::judge(a, &limits::limits_at(**speed, head.contract)).is_ok())
        .count();
    head.step ^= 1;
    a.set_head(head);
    passed as u64
}

// A road is read once, before it is judged.
fn sum_of(measured: Measured, file: &mut [u8]) -> u64 {
    match measured {
        Measured::Read => many_calls::sum_of(file, CALLS, |file, _| read(file)),
        Measured::Mark => many_calls::sum_of(file, CALLS, |file, _| marked(file)),
        Measured::Judge => {
            let mut road = alignment::read(file).ok();
            many_calls::sum_of(file, CALLS, |_, _| road.as_mut().map(judged))
        }
    }
}

fn main(rt: HostRuntime) {
    let mut space = [0u8; 8194];
    let length = streams::read_full(&mut rt.stdin(), &mut space);
    if 4 <= length {
        let sum = sum_of(Measured::from(space[0]), &mut space[1..length]);
        let _ = println!(rt; "{sum}");
    }
}
