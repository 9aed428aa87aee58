// Sweeps the readers of entries and sections and prints a digest for each part. The file stdout beside src/ is what the
// oracle prints for the same sweep.
#![tactic(auto)]

mod digest;
mod good;
mod lines;
mod read;

use std::io;

// The buffer is made here, once, and has room for any line.
fn main(rt: HostRuntime) {
    let mut out = [0u8; 64];
    // What failed has been said.
    let _ = sweep(&rt, &mut out);
}

// Behind a line that cannot be written there are no others.
fn sweep(rt: &(impl Print + Eprint), out: &mut [u8]) -> io::Result<()> {
    for kind in 0..=255 {
        lines::entry(rt, out, kind)?;
    }
    for header in 0..=255 {
        lines::header(rt, out, header)?;
    }
    for count in 0..16 {
        for place in 0..good::size(count) {
            lines::section(rt, out, count, place)?;
        }
    }
    for count in 0..16 {
        lines::size(rt, out, count)?;
    }
    for byte in 0..=255 {
        lines::byte1(rt, out, byte)?;
    }
    Ok(())
}
