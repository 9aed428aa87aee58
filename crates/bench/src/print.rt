// Lines on standard output, each a word and a number.
use std::io;

// What came of all turns that write: the sum of the answers' numbers, the last length, and the sum of the lent bytes.
pub fn turns(
    rt: &(impl Print + Eprint),
    answers: u64,
    length: usize,
    name: &[u8],
    written: &[u8],
) -> io::Result<()> {
    number(rt, b"answers ", answers)?;
    number(rt, b"length ", length as u64)?;
    sum(rt, name, written)
}

pub fn number(rt: &(impl Print + Eprint), name: &[u8], n: u64) -> io::Result<()> {
    let mut line = [0u8; 64];
    let shown = text::number(&mut line, 0, name, n);
    streams::write_line(rt, &mut line, shown)
}

// The sum of the bytes of a buffer.
pub fn sum(rt: &(impl Print + Eprint), name: &[u8], bytes: &[u8]) -> io::Result<()> {
    let total = bytes
        .iter()
        .fold(0u64, |sum, byte| sum.wrapping_add(u64::from(*byte)));
    number(rt, name, total)
}
