// Reading until a buffer is full, and writing bytes whole, by single calls of a stream. A call that a signal interrupts counts as one that failed.

#![tactic(auto)]

ghost use Rattle.std.specs.Prelude.{◌≡◌, ℕ, ◌<◌, ◌≤◌, length, take, OnOk};
ghost use Rattle.std.specs.Io.KnownBytes.{Appends, Consumes, IsAtEnd};
ghost use Rattle.streams.specs.Count.{count_of};

use std::io;
use std::io::{ErrorKind, Read, Write};

// A read that failed, and how many bytes the reads before it gave.
#[derive(Clone, Copy, Debug)]
pub struct ReadFailed {
    pub count: usize,
}

// Writes all of some bytes, or stops at the first write that fails or takes none. What was written is their beginning: of that `write_all` says nothing after an error.
pub fn write_whole<W: Write>(writer: &mut W, bytes: &[u8]) -> io::Result<()>
    ensures whole { OnOk result (Appends (W.contents writer.old) (W.contents writer.new) bytes.now) }
    ensures beginning { (n : ℕ) × (n ≤ length bytes.now) × Appends (W.contents writer.old) (W.contents writer.new) (take n bytes.now) }
{
    let mut done = 0;
    while done < bytes.len() {
        match writer.write(&bytes[done..])? {
            0 => return Err(ErrorKind::WriteZero.into()),
            count => done += count,
        }
    }
    Ok(())
}

// Reads until the buffer is full or the input ends, or stops at the first read that fails; how many bytes then stand at the buffer's start, those that the reader had first.
pub fn fill<R: Read>(reader: &mut R, buffer: &mut [u8]) -> Result<usize, ReadFailed>
    ensures within { count_of result ≤ length buffer.new }
    ensures first { Consumes (R.remaining reader.old) (R.remaining reader.new) (take (count_of result) buffer.new) }
    ensures all { OnOk result (count_of result < length buffer.new → IsAtEnd (R.remaining reader.new)) }
{
    // single reads: `read_exact` says nothing of the buffer after an error, nor of an input that ends before it is full
    let mut count = 0;
    while count < buffer.len() {
        match reader.read(&mut buffer[count..]) {
            Ok(0) => break,
            Ok(more) => count += more,
            Err(_) => return Err(ReadFailed { count }),
        }
    }
    Ok(count)
}

// The same, where a read that fails ends the input.
pub fn read_full<R: Read>(reader: &mut R, buffer: &mut [u8]) -> usize
    ensures within { result ≤ length buffer.new }
    ensures first { Consumes (R.remaining reader.old) (R.remaining reader.new) (take result buffer.new) }
{
    fill(reader, buffer).unwrap_or_else(|failed| failed.count)
}
