// One line of a tape: its first letter says which operation it is. Each operation gives `None` where its line is malformed,
// and has then printed nothing.
ghost use Rattle.std.specs.Prelude.{◌≡◌};
ghost use Rattle.tape.specs.State.{first_state};

use crate::print::Output;
use crate::{calls, packet, packet_write, read, write};
use reader::CDPParser;

// What goes from line to line: how much there is of the line that is being read, or none where it is too long to be kept,
// and the reader.
// No slice: the line stands in a buffer of main's, and grows by what is read next.
#[derive(Clone, Copy)]
pub struct State {
    pub length: Option<usize>,
    pub parser: CDPParser,
}

impl State {
    pub fn first() -> Self
        ensures { result ≡ first_state }
    {
        let parser = CDPParser::new();
        Self {
            length: Some(0),
            parser,
        }
    }
}

// Prints the answer of a line, if it is not too long, without a newline.
pub fn run(
    line: Option<&[u8]>,
    given: &mut [u8],
    lent: &mut [u8],
    out: &mut Output<impl Print + Eprint>,
    parser: &mut CDPParser,
) {
    let Some(line) = line else {
        return out.byte(b'?');
    };
    if answered(line, given, lent, out, parser).is_none() {
        out.byte(b'?');
    }
}

// A letter that no operation has is malformed.
fn answered(
    line: &[u8],
    given: &mut [u8],
    lent: &mut [u8],
    out: &mut Output<impl Print + Eprint>,
    parser: &mut CDPParser,
) -> Option<()> {
    let letter = *line.first()?;
    // A match and no table of functions: each operation takes other buffers.
    match letter {
        b'P' | b'A' => packet::read(line, letter, given, lent, out, parser),
        b'F' => packet::flush(line, out, parser),
        b'G' => packet::active(line, out, parser),
        b'S' | b'B' | b'Y' => read::bytes(line, letter, given, out),
        b'E' | b'C' => read::entry(line, letter, given, out),
        b'T' => calls::calls(line, out),
        b'W' => packet_write::write(line, given, lent, out),
        b'L' => write::section(line, lent, out),
        b'N' => write::entry(line, lent, out),
        _ => None,
    }
}
