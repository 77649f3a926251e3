// Makes the runs of the vectors: lists of calls of the two routines on one file and one buffer. Prints each answer and every byte of the buffer after each call.

#![tactic(auto)]

ghost use Rattle.std.specs.Prelude.{◌<◌, ◌≤◌, length, IfSome};

use runs::{Answer, Call};
use std::io;

// A run of the input: its file, what its buffer begins with, how many calls it has, and the bytes from these on.
#[derive(Clone, Copy)]
struct Run<'a> {
    file: &'a [u8],
    line: &'a [u8],
    count: u32,
    calls: &'a [u8],
}

// ---- the input; where it breaks off, numbers are 0 and parts are empty

// The run at the front of the input.
fn split_run(input: &[u8]) -> Run<'_>
    ensures { 0 < length input.now → length result.calls.now < length input.now }
{
    let (file, rest) = cases::part_or_empty(input);
    let (line, rest) = cases::part_or_empty(rest);
    let (count, calls) = cases::number_or_0(rest);
    Run {
        file,
        line,
        count,
        calls,
    }
}

// The call at the front of the input: its kind, 0 for a row, and the two halves of its station; and the bytes behind it.
fn split_call(input: &[u8]) -> (Call, &[u8])
    ensures { length result.1.now ≤ length input.now }
{
    let (kind, rest) = cases::number_or_0(input);
    let (high, rest) = cases::number_or_0(rest);
    let (low, rest) = cases::number_or_0(rest);
    let station = u64::from(high) << 32 | u64::from(low);
    let call = match kind {
        0 => Call::Row(station),
        _ => Call::Next(station),
    };
    (call, rest)
}

// ---- the output
// Functions and no Display, since call and answer are types of another crate.

fn show_call(rt: &impl Print, call: Call) -> io::Result<()> {
    match call {
        Call::Row(station) => print!(rt; "row {station}: "),
        Call::Next(station) => print!(rt; "next {station}: "),
    }
}

fn show_answer(rt: &impl Print, answer: Answer) -> io::Result<()> {
    match answer {
        Answer::Row(Ok(length)) => print!(rt; "len {length}"),
        Answer::Next(Ok(Some(station))) => print!(rt; "station {station}"),
        Answer::Next(Ok(None)) => print!(rt; "none"),
        Answer::Row(Err(refusal)) | Answer::Next(Err(refusal)) => {
            print!(rt; "R {} {}", refusal.fault.number(), refusal.place)
        }
    }
}

// Two hexadecimal digits.
fn hex(byte: u8) -> [u8; 2] {
    let digits = b"0123456789abcdef";
    [
        digits[usize::from(byte >> 4)],
        digits[usize::from(byte & 15)],
    ]
}

// ---- the runs; a write that fails holds up no call and no other write

// A write for each byte; its digits are made by hand, since a format for each took a quarter more time.
fn show_bytes(rt: &impl Print, bytes: &[u8]) {
    for b in bytes {
        let _ = rt.write_all(&hex(*b));
    }
    let _ = println!(rt; "");
}

fn show_buffer(rt: &impl Print, line: &[u8]) {
    let _ = print!(rt; "buffer ");
    show_bytes(rt, line);
}

// One call, its answer, and the buffer after it.
fn make_call(rt: &impl Print, file: &[u8], call: Call, line: &mut [u8]) {
    let _ = show_call(rt, call);
    let _ = show_answer(rt, call.answer(file, line));
    let _ = print!(rt; " | ");
    show_bytes(rt, line);
}

// The calls of a run, and the bytes behind them; a run whose buffer is over 256 bytes is not made.
fn make_run<'a>(rt: &impl Print, run: Run<'a>) -> Option<&'a [u8]>
    ensures { IfSome result (λ rest. length rest.now ≤ length run.entry.calls.now) }
{
    let mut space = [0u8; 256];
    let size = run.line.len();
    if space.len() < size {
        return None;
    }
    let line = &mut space[..size];
    line.copy_from_slice(run.line);
    show_buffer(rt, line);
    let mut calls = run.calls;
    for _ in 0..run.count {
        let (call, rest) = split_call(calls);
        make_call(rt, run.file, call, line);
        calls = rest;
    }
    Some(calls)
}

// The runs, up to the first that is not made.
fn make_runs(rt: &impl Print, input: &[u8]) {
    let mut rest = input;
    while !rest.is_empty() {
        let Some(behind) = make_run(rt, split_run(rest)) else {
            break;
        };
        rest = behind;
    }
}

fn main(rt: HostRuntime) {
    let mut space = cases::room();
    let count = streams::read_full(&mut rt.stdin(), &mut space);
    make_runs(&rt, &space[..count]);
}
