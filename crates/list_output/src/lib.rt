// The list of a file, written to an output part by part.

#![tactic(auto)]

ghost use Rattle.std.specs.Prelude.{◌≡◌, [], ◌∷◌, ◌++◌, ◌≤◌, length, OnOk};
ghost use Rattle.std.specs.Io.KnownBytes.{Appends};
ghost use Rattle.decimal.specs.Decimal.{digits};
ghost use Rattle.decimal.specs.Written.{Wrote};
ghost use Rattle.road.specs.Faults.{fault_number};
ghost use Rattle.road.specs.Listing.{refusal_line, list_of};
ghost use Rattle.list_output.specs.Parts.{lines_from, Begins};

use accepted_road::AcceptedRoad;
use road::Refusal;
use std::io;
use std::io::Write;

// A field of a number without a sign, which takes at most 21 bytes.
#[tactic(auto, using(crate::specs::RefusalLine::short))]
fn put_number(line: &mut [u8], n: u64, after: u8) -> usize
    requires { 21 ≤ length line.old }
    ensures wrote { Wrote line.old line.new 0 (digits n ++ (after ∷ [])) result }
    ensures most { result ≤ 21 }
{
    decimal::put_field(line, n, after)
}

// "R", number and place of a refusal over the first bytes of the line, and its length: of any number and place, not of a `Refusal` alone. By hand: std's
// formatting says nothing of what it wrote before an error.
pub fn put_refusal(line: &mut [u8], number: u32, place: usize) -> usize
    requires { 64 ≤ length line.old }
    ensures wrote { Wrote line.old line.new 0 (refusal_line number place) result }
    ensures most { result ≤ 64 }
{
    line[0] = b'R';
    line[1] = b' ';
    let mut end = 2;
    end += put_number(&mut line[end..], u64::from(number), b' ');
    end += put_number(&mut line[end..], place as u64, b'\n');
    end
}

// The line of a refusal.
fn print_refusal<W: Write>(output: &mut W, refusal: Refusal) -> io::Result<()>
    ensures whole { OnOk result (Appends (W.contents output.old) (W.contents output.new) (refusal_line (fault_number refusal.fault) refusal.place)) }
    ensures beginning { Begins (refusal_line (fault_number refusal.fault) refusal.place) (W.contents output.old) (W.contents output.new) }
{
    // std's formatting says nothing of what it wrote before an error, and not that it has none: the line is put into a buffer and written from there
    let mut line = [0u8; 64];
    let end = put_refusal(&mut line, refusal.fault.number(), refusal.place);
    streams::write_whole(output, &line[..end])
}

// Prints the rows of an accepted road part by part, as many at a time as the buffer has room for, up to the end or to a write that fails. Room for one row is
// asked of a slice: a type for it would be made by each of its three callers.
pub fn print_rows<W: Write>(output: &mut W, road: &AcceptedRoad, out: &mut [u8]) -> io::Result<()>
    requires { 96 ≤ length out.old }
    ensures whole { OnOk result (Appends (W.contents output.old) (W.contents output.new) (lines_from road.now (Some 0))) }
    ensures beginning { Begins (lines_from road.now (Some 0)) (W.contents output.old) (W.contents output.new) }
{
    let mut next = Some(0);
    while let Some(station) = next {
        let chunk = walk::rows_from(road, station, out);
        streams::write_whole(output, &out[..chunk.bytes])?;
        next = chunk.next;
    }
    Ok(())
}

// Prints the rows of an accepted road by a buffer made here: a refused file pays for none.
fn print_accepted<W: Write>(output: &mut W, road: &AcceptedRoad) -> io::Result<()>
    ensures whole { OnOk result (Appends (W.contents output.old) (W.contents output.new) (lines_from road.now (Some 0))) }
    ensures beginning { Begins (lines_from road.now (Some 0)) (W.contents output.old) (W.contents output.new) }
{
    let mut out = [0; 131072];
    print_rows(output, road, &mut out)
}

// Prints the list of a file, or its refusal, up to the end or to a write that fails. What was written is the list, or its beginning.
pub fn print_list<W: Write>(output: &mut W, file: &[u8]) -> io::Result<()>
    ensures whole { OnOk result (Appends (W.contents output.old) (W.contents output.new) (list_of file.now)) }
    ensures beginning { Begins (list_of file.now) (W.contents output.old) (W.contents output.new) }
{
    match acceptance::accept(file) {
        Ok(road) => print_accepted(output, &road),
        Err(refusal) => print_refusal(output, refusal),
    }
}
