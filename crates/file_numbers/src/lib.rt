// The numbers of the file: seven bits to a byte, lowest group first.

#![tactic(auto)]

ghost use Rattle.std.specs.Prelude.{◌≡◌, ◌+◌, ◌*◌, ◌^◌, ◌%◌, ◌<◌, leb};
ghost use Rattle.file_numbers.specs.Number.{byte_count, number, signed_of, written};
ghost use Rattle.file_numbers.specs.Meaning.{meaning};
ghost use Rattle.file_numbers.specs.Answer.{answer};

// A number of the file and the place after it.
#[derive(Clone, Copy)]
pub struct Number {
    pub value: u32,
    pub next: usize,
}

// How many bytes a number takes in its shortest form. Rounded up by hand: with div_ceil a file is read a tenth slower.
#[tactic(auto, using(crate::specs::Bits::bits_leading), unfolding(crate::specs::Number::byte_count))]
pub fn byte_count(v: u32) -> u32
    ensures { result ≡ byte_count v }
{
    let bits = 32 - v.leading_zeros();
    ((bits + 6) / 7).max(1)
}

// Whether the top bit says that more bytes follow.
fn continues(b: u8) -> bool
    ensures { result ≡ leb 128 b }
{
    b & 128 != 0
}

// The seven bits of a byte.
fn group(b: u8) -> u64
    ensures { result ≡ b % 128 }
{
    u64::from(b & 127)
}

// A group put above the first `count` groups.
fn joined(value: u64, count: u32, g: u64) -> u64
    requires { (count < 5) × (value < 2 ^ (7 * count)) × (g < 128) }
    ensures { result ≡ g * 2 ^ (7 * count) + value }
{
    value | g << (7 * count)
}

// The number that groups make, where they are its shortest form and it is not too great.
#[tactic(auto, unfolding(crate::specs::Answer::answer, crate::specs::Number::sound))]
fn finished(value: u64, count: u32, next: usize) -> Option<Number>
    ensures { result ≡ answer value count next }
{
    let value = u32::try_from(value).ok()?;
    (count == byte_count(value)).then_some(Number { value, next })
}

// The number at a place of the file.
#[tactic(auto, using(crate::proofs::Laws::breaks_off, crate::proofs::Laws::ends, crate::proofs::Laws::too_many_groups, crate::proofs::Laws::behind_the_end))]
pub fn read_number(file: &[u8], at: usize) -> Option<Number>
    ensures { meaning result at ≡ number file.now at }
{
    let bytes = file.get(at..)?;
    let mut value = 0;
    // by index: `bytes.iter().take(5).enumerate()` is no shorter, and with it the numbers of a file take 7 % more instructions to read
    for count in 0..5 {
        let b = *bytes.get(count)?;
        value = joined(value, count as u32, group(b));
        if !continues(b) {
            return finished(value, count as u32 + 1, at + count + 1);
        }
    }
    None
}

// The signed value that a number is written for.
#[tactic(auto, using(crate::specs::Signed::even_is, crate::specs::Signed::odd_is, std::proofs::lemmas::Grind::and_numeral))]
pub fn signed_of(v: u32) -> i32
    ensures { result ≡ signed_of v }
{
    let half = (v >> 1) as i32;
    if v & 1 == 0 { half } else { -1 - half }
}

// The number that a signed value is written as.
pub fn written_as(v: i32) -> u32
    ensures { result ≡ written v }
{
    if v < 0 {
        let half = (-1 - v) as u32;
        half << 1 | 1
    } else {
        let half = v as u32;
        half << 1
    }
}
