// Makes many calls of one kind for 2,000 pegs spread evenly over a road, a bit of the file turned between calls, and prints the sum of their answers modulo 2^32: for measuring.
// Standard input has a letter, n in two bytes, the low one first, and then the file: a judges it n times, g gives the rows of the pegs in one go n times, s by single calls n times, l lists it n times, p prints the rows.

#![tactic(auto)]

ghost use Rattle.std.specs.Prelude.{◌≤◌, IfSome};

use std::io::Write;
use std::{array, io};

const PEGS: usize = 2000;

// Room for a row of each peg.
const ROOM: usize = 96 * PEGS;

// What is measured; any other letter lists.
enum Measured {
    Judge,
    Rows,
    SingleRows,
    List,
    Print,
}

impl From<u8> for Measured {
    fn from(letter: u8) -> Measured {
        match letter {
            b'a' => Measured::Judge,
            b'g' => Measured::Rows,
            b's' => Measured::SingleRows,
            b'p' => Measured::Print,
            _ => Measured::List,
        }
    }
}

// An output that counts its bytes.
#[derive(Drop)]
struct Counted {
    bytes: u64,
}

impl Write for Counted {
    fn write(&mut self, buffer: &[u8]) -> io::Result<usize> {
        self.bytes = self.bytes.wrapping_add(buffer.len() as u64);
        Ok(buffer.len())
    }

    fn flush(&mut self) -> io::Result<()> {
        Ok(())
    }
}

// ---- one call

// T.
fn total(file: &[u8]) -> Option<u64>
    ensures { IfSome result (λ t. t ≤ 100000000) }
{
    acceptance::accept(file).ok().map(|road| road.total())
}

// The length of the pegs' rows.
fn put_rows(file: &[u8], pegs: &[u64; PEGS], out: &mut [u8]) -> Option<u64> {
    pegs::peg_rows(file, pegs, out)
        .ok()
        .map(|length| length as u64)
}

// The length of the row of one peg; behind the last the first follows again.
fn put_row(file: &[u8], pegs: &[u64; PEGS], place: u64, out: &mut [u8]) -> Option<u64> {
    stationing::row(file, pegs[place as usize % PEGS], out)
        .ok()
        .map(|length| length as u64)
}

// The length of the list.
fn put_list(file: &[u8], out: &mut [u8; ROOM]) -> Option<u64> {
    let road = acceptance::accept(file).ok()?;
    let mut list = Counted { bytes: 0 };
    let _ = list_output::print_rows(&mut list, &road, out);
    Some(list.bytes)
}

// ---- many calls

// Peg i is T × i / 1999, rounded down.
fn spread(end: u64) -> [u64; PEGS]
    requires { end ≤ 100000000 }
{
    array::from_fn(|i| end * i as u64 / 1999)
}

// How many calls pass n times over the pegs.
fn single_calls(n: u16) -> u64
    ensures { result ≤ 1_000_000_000 }
{
    PEGS as u64 * u64::from(n)
}

// The pegs are computed once, before the calls.
fn print_answer(rt: &impl Print, measured: Measured, n: u16, file: &mut [u8]) -> io::Result<()> {
    let pegs = spread(total(file).unwrap_or(0));
    let mut out = [0u8; ROOM];
    let often = u64::from(n);
    let sum = match measured {
        Measured::Judge => many_calls::sum_of(file, often, |file, _| total(file)),
        Measured::Rows => many_calls::sum_of(
            file,
            often,
            |file, _| put_rows(file, &pegs, &mut out),
        ),
        Measured::SingleRows => {
            many_calls::sum_of(file, single_calls(n), |file, place| {
                put_row(file, &pegs, place, &mut out)
            })
        }
        Measured::List => many_calls::sum_of(file, often, |file, _| put_list(file, &mut out)),
        Measured::Print => {
            let length = pegs::peg_rows(file, &pegs, &mut out).unwrap_or(0);
            return rt.write_all(&out[..length.min(out.len())]);
        }
    };
    println!(rt; "{}", sum & 0xffff_ffff)
}

fn main(rt: HostRuntime) {
    let mut space = [0u8; 8196];
    let length = streams::read_full(&mut rt.stdin(), &mut space);
    if let [letter, low, high, file @ ..] = &mut space[..length] {
        if file.len() >= 3 {
            let n = u16::from_le_bytes([*low, *high]);
            let _ = print_answer(&rt, Measured::from(*letter), n, file);
        }
    }
}
