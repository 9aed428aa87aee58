// Bytes put into a lent buffer, as many of them as it has room for.
ghost use Rattle.std.specs.Prelude.{[], ◌∷◌, ◌++◌};
ghost use Rattle.text.specs.Lines.{line_text};
ghost use Rattle.text.specs.Room.{PutInRoom};

// Puts one byte, and gives the place behind it. Behind the buffer's end nothing is put.
pub fn byte(out: &mut [u8], at: usize, byte: u8) -> usize
    ensures { PutInRoom at (byte ∷ []) out.old result out.new }
{
    if at < out.len() {
        out[at] = byte;
        return at + 1;
    }
    at
}

// Puts bytes as they are.
pub fn word(out: &mut [u8], from: usize, text: &[u8]) -> usize
    ensures { PutInRoom from text.now out.old result out.new }
{
    let mut at = from;
    for x in text {
        at = byte(out, at, *x);
    }
    at
}

// Puts bytes and the end of a line; with no bytes it ends the line that is there.
pub fn line(out: &mut [u8], at: usize, text: &[u8]) -> usize
    ensures { PutInRoom at (line_text text.now) out.old result out.new }
{
    both(out, at, text, b"\n")
}

// Puts one run of bytes behind another.
pub(crate) fn both(out: &mut [u8], at: usize, first: &[u8], second: &[u8]) -> usize
    ensures { PutInRoom at (first.now ++ second.now) out.old result out.new }
{
    let between = word(out, at, first);
    word(out, between, second)
}
