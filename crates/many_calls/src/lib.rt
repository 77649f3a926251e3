// Many calls on a file, for measuring: it changes between calls, so that no two of them are one to a compiler.

#![tactic(auto)]

ghost use Rattle.std.specs.Prelude.{◌≡◌};
ghost use Rattle.many_calls.specs.Between.{turned, turned_often};

// The lowest bit of the third byte, which is the step's where the file has no date.
fn turn(file: &mut [u8])
    ensures { file.new ≡ turned file.old }
{
    if let [_, _, third, ..] = file {
        *third ^= 1;
    }
}

// The sum of so many answers, modulo 2^64, with a turn behind each call. A call is told its place among them, and may have no answer, which adds nothing.
pub fn sum_of<F: FnMut(&[u8], u64) -> Option<u64>>(file: &mut [u8], calls: u64, mut call: F) -> u64
    requires { F.IsAlwaysCallable call }
    ensures { file.new ≡ turned_often calls file.old }
{
    let mut sum = 0u64;
    for i in 0..calls {
        sum = sum.wrapping_add(call(file, i).unwrap_or(0));
        turn(file);
    }
    sum
}
