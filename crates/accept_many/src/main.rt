// Reads and judges the file on standard input many times, a bit of it turned between calls, and prints how often it was accepted: for measuring.

#![tactic(auto)]

ghost use Rattle.std.specs.Prelude.{◌≤◌, IfSome};

const CALLS: u64 = 20000;

// 1 where the file is accepted.
fn accepted(file: &[u8]) -> Option<u64>
    ensures { IfSome result (λ often. often ≤ 1) }
{
    acceptance::accept(file).is_ok().then_some(1)
}

fn main(rt: HostRuntime) {
    let mut space = [0u8; 8193];
    let length = streams::read_full(&mut rt.stdin(), &mut space);
    if 3 <= length {
        let often = many_calls::sum_of(&mut space[..length], CALLS, |file, _| accepted(file));
        let _ = println!(rt; "{often}");
    }
}
