// The line for a place of a packet, put together in a lent buffer and written.
use crate::change::Change;
use crate::read::Tally;
use std::io;
use text::{flag, number};

pub fn tally(
    rt: &(impl Print + Eprint),
    out: &mut [u8],
    packet: u8,
    change: Change,
    tally: Tally,
) -> io::Result<()> {
    let named = number(out, 0, b"packet ", packet as u64);
    let placed = number(out, named, b" ", change.place as u64);
    let mended = flag(out, placed, b" ", change.mended);
    let digest = number(out, mended, b" ", tally.digest);
    let accepted = number(out, digest, b" ", tally.accepted);
    streams::write_line(rt, out, accepted)
}
