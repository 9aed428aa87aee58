// One line of the sweep each, put together in a lent buffer and written.
use crate::digest;
use std::io;
use text::{hex, number};

// All entries with one byte 3.
pub fn entry(rt: &(impl Print + Eprint), out: &mut [u8], kind: u8) -> io::Result<()> {
    let named = hex(out, 0, b"entry ", kind);
    written(rt, out, named, digest::entries(kind as u64))
}

// All bytes 3 of an entry behind one header byte.
pub fn header(rt: &(impl Print + Eprint), out: &mut [u8], header: u8) -> io::Result<()> {
    let named = hex(out, 0, b"header ", header);
    written(rt, out, named, digest::headers(header as u64))
}

// All values of one byte of a good section.
pub fn section(
    rt: &(impl Print + Eprint),
    out: &mut [u8],
    count: u64,
    place: u64,
) -> io::Result<()> {
    let named = number(out, 0, b"section ", count);
    let placed = number(out, named, b" ", place);
    written(rt, out, placed, digest::place(count, place))
}

// A good section cut, whole, and with up to eight zeros behind.
pub fn size(rt: &(impl Print + Eprint), out: &mut [u8], count: u64) -> io::Result<()> {
    let named = number(out, 0, b"size ", count);
    written(rt, out, named, digest::sizes(count))
}

// One byte 1 with as many good entries as it counts.
pub fn byte1(rt: &(impl Print + Eprint), out: &mut [u8], byte: u8) -> io::Result<()> {
    let named = hex(out, 0, b"byte1 ", byte);
    written(rt, out, named, digest::second_byte(byte as u64))
}

// Puts the digest behind what is there, and writes the line.
fn written(rt: &(impl Print + Eprint), out: &mut [u8], at: usize, digest: u64) -> io::Result<()> {
    let shown = number(out, at, b" ", digest);
    streams::write_line(rt, out, shown)
}
