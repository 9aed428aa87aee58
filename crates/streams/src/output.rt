// Standard output.
ghost use Rattle.std.specs.Prelude.{◌≡◌, ◌∷◌, []};
ghost use Rattle.basis.specs.Bytes.{over};
ghost use Rattle.text.specs.Room.{fitting_part};

use std::io;

// Writes a text in one call, all of it unless that fails.
pub fn write(rt: &(impl Print + Eprint), text: &[u8]) -> io::Result<()> {
    rt.write_all(text).inspect_err(|_| {
        // Where this line cannot be written either, nothing is left to be told.
        let _ = rt.eprintln("standard output could not be written");
    })
}

// Writes the first bytes of a buffer, all of it where it has no more.
pub fn write_first(rt: &(impl Print + Eprint), buffer: &[u8], end: usize) -> io::Result<()> {
    write(rt, buffer.get(..end).unwrap_or(buffer))
}

// Ends the line that a buffer holds up to a place, and writes it.
pub fn write_line(rt: &(impl Print + Eprint), line: &mut [u8], at: usize) -> io::Result<()>
    ensures { line.new ≡ over at (fitting_part at (10 ∷ []) line.old) line.old }
{
    let end = text::line(line, at, b"");
    write_first(rt, line, end)
}
