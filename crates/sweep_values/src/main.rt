// Sweeps the small spaces of the values layer and prints a line or a digest for each part. The file stdout beside src/
// is what the oracle prints for the same sweep.
#![tactic(auto)]

mod digest;
mod lines;

use std::io;

// The buffer is made here, once, and has room for any line.
fn main(rt: HostRuntime) {
    let mut out = [0u8; 64];
    // What failed has been said.
    let _ = sweep(&rt, &mut out);
}

// Behind a line that cannot be written there are no others.
fn sweep(rt: &(impl Print + Eprint), out: &mut [u8]) -> io::Result<()> {
    for id in 0..=255 {
        lines::rate(rt, out, id)?;
    }
    for byte in 0..=255 {
        lines::flags(rt, out, byte)?;
    }
    for six in 0..64 {
        lines::made(rt, out, six)?;
    }
    for place in 0..4 {
        for byte in 0..=255 {
            lines::time(rt, out, place, byte)?;
        }
    }
    for hours in 0..41 {
        lines::write(rt, out, hours)?;
    }
    for high in 0..=255 {
        lines::sequence(rt, out, high)?;
    }
    Ok(())
}
