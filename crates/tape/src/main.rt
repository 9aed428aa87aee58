// Reads a tape from standard input and prints its transcript; docs/TAPE.md has the form of both. The file stdout beside
// src/ is what the oracle prints for the tape in the file stdin.
#![tactic(auto)]

mod calls;
mod held;
mod lent;
mod lists;
mod operation;
mod packet;
mod packet_write;
mod places;
mod print;
mod read;
mod reasons;
mod show;
mod words;
mod write;

use crate::operation::State;
use crate::print::Output;

// All buffers are made here, once, and lent from here on: a part of the input, a line, the bytes that a line gives, the
// bytes that a line lends, and what is to be printed. A longer line than the buffer's is malformed.
fn main(rt: HostRuntime) {
    let mut part = [0u8; 16384];
    let mut line = [0u8; 65536];
    let mut given = [0u8; 4096];
    let mut lent = [0u8; 4096];
    let mut out = Output::new(&rt);
    tape(&rt, &mut part, &mut line, &mut given, &mut lent, &mut out);
}

fn tape(
    rt: &(impl Input + Eprint),
    part: &mut [u8],
    line: &mut [u8],
    given: &mut [u8],
    lent: &mut [u8],
    out: &mut Output<impl Print + Eprint>,
) {
    let last = parts(rt, part, line, given, lent, out, State::first());
    // The last line needs no newline.
    if last.length != Some(0) {
        one(line, given, lent, out, last);
    }
    out.flush();
}

// Reads part by part and runs the lines of each, until the input has ended, the read fails or a write has failed. Nothing
// says that the input ends, so there are as many turns as no run uses up.
fn parts(
    rt: &(impl Input + Eprint),
    part: &mut [u8],
    line: &mut [u8],
    given: &mut [u8],
    lent: &mut [u8],
    out: &mut Output<impl Print + Eprint>,
    first: State,
) -> State {
    let mut s = first;
    for _ in 0..u64::MAX {
        match streams::read_part(rt, part) {
            Ok(0) => return s,
            Ok(count) => s = lines(&part[..count], line, given, lent, out, s),
            Err(_) => return unread(s),
        }
        if out.has_failed() {
            return s;
        }
    }
    s
}

// Where a read fails, what is there of a line is none: its rest is not known.
fn unread(mut s: State) -> State {
    s.length = Some(0);
    s
}

// Runs every line that ends in this part of the input, and keeps what is left.
fn lines(
    part: &[u8],
    line: &mut [u8],
    given: &mut [u8],
    lent: &mut [u8],
    out: &mut Output<impl Print + Eprint>,
    first: State,
) -> State {
    let mut s = first;
    for piece in part.split_inclusive(|byte| *byte == b'\n') {
        match piece.strip_suffix(b"\n") {
            Some(end) => {
                s.length = kept(line, s.length, end);
                s = one(line, given, lent, out, s);
            }
            None => s.length = kept(line, s.length, piece),
        }
    }
    s
}

// Puts a piece behind what is there of the line, and gives the length, or none for a line too long to be kept.
fn kept(line: &mut [u8], length: Option<usize>, piece: &[u8]) -> Option<usize> {
    let length = length?;
    let end = length.checked_add(piece.len())?;
    if line.len() < end {
        return None;
    }
    basis::put(line, length, piece);
    Some(end)
}

// Runs the line that is kept, and begins the next.
fn one(
    line: &[u8],
    given: &mut [u8],
    lent: &mut [u8],
    out: &mut Output<impl Print + Eprint>,
    mut s: State,
) -> State {
    let kept = s.length.and_then(|length| line.get(..length));
    operation::run(kept, given, lent, out, &mut s.parser);
    out.byte(b'\n');
    s.length = Some(0);
    s
}
