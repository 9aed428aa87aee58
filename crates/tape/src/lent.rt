// The bytes that a line lends to a call.
ghost use Rattle.std.specs.Prelude.{◌≡◌};
ghost use Rattle.tape.specs.Lent.{room_of};

use crate::print::Output;
use crate::words;
use crate::words::Word;

// The most that a line may lend.
const MOST: u32 = 4096;

// How many a line lends is its first word behind the letter.
pub fn room(line: &[u8]) -> Option<Word<u32>>
    ensures { result ≡ room_of line.now }
{
    words::number(line, words::operands(line)?, MOST)
}

// All of them are printed, written or not.
pub fn show(out: &mut Output<impl Print + Eprint>, lent: &[u8]) {
    out.word(b" buf ");
    out.bytes(lent);
}
