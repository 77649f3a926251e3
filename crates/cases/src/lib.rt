// The cases of a test program's input: numbers, and parts that stand after their lengths.

#![tactic(auto)]

ghost use Rattle.std.specs.Prelude.{◌≡◌, ◌<◌, ◌≤◌, length, option_map, IfSome, ℕ, List};
ghost use Rattle.cases.specs.Cases.{first_number, first_part, number_or_0, part_or_empty};

// The number at the front of an input, and the bytes behind it.
pub fn split_number(input: &[u8]) -> Option<(u32, &[u8])>
    ensures split { option_map (λ p. (p.0, p.1.now)) result ≡ first_number input.now }
    ensures shorter { IfSome result (λ p. length p.1.now < length input.now) }
{
    let n = file_numbers::read_number(input, 0)?;
    Some((n.value, &input[n.next..]))
}

// The part at the front of an input, after its length and as far as the input goes, and the bytes behind it.
pub fn split_part(input: &[u8]) -> Option<(&[u8], &[u8])>
    ensures split { option_map (λ p. (p.0.now, p.1.now)) result ≡ first_part input.now }
    ensures shorter { IfSome result (λ p. length p.1.now < length input.now) }
{
    let (length, rest) = split_number(input)?;
    Some(rest.split_at(rest.len().min(length as usize)))
}

// The number at the front of an input, and the bytes behind it; where there is none, 0 and nothing behind it.
pub fn number_or_0(input: &[u8]) -> (u32, &[u8])
    ensures number { (result.0, result.1.now) ≡ number_or_0 (first_number input.now) }
    ensures no_longer { length result.1.now ≤ length input.now }
    ensures shorter { 0 < length input.now → length result.1.now < length input.now }
{
    split_number(input).unwrap_or((0, &[]))
}

// The part at the front of an input, and the bytes behind it; where it has no length, an empty one and nothing behind it.
pub fn part_or_empty(input: &[u8]) -> (&[u8], &[u8])
    ensures part { (result.0.now, result.1.now) ≡ part_or_empty (first_part input.now) }
    ensures no_longer { length result.1.now ≤ length input.now }
    ensures shorter { 0 < length input.now → length result.1.now < length input.now }
{
    split_part(input).unwrap_or((&[], &[]))
}

// Room for a whole input. A function's: of an array of this length in the caller the checker writes out each byte, too deep for it.
pub fn room() -> [u8; 524288]
    ensures { 524288 ≡ length result }
{
    [0; 524288]
}
