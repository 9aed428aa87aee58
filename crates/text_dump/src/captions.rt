// The captions: their count, then a line for each.
ghost use Rattle.std.specs.Prelude.{◌≡◌, ◌<◌, ◌++◌, ◌%◌, ◌/◌, length};
ghost use Rattle.basis.specs.Made.{made};
ghost use Rattle.text.specs.Digits.{hex_after};
ghost use Rattle.text.specs.Lines.{line_text, lines_text};
ghost use Rattle.text.specs.Room.{PutInRoom};
ghost use Rattle.text_dump.specs.Lines as Lines;

use text::{hex, line, number};
use values::Packet;

// Two bytes stand in front of the captions, so that a third of the length is their count. Without a section there are
// none.
pub(crate) fn captions(out: &mut [u8], at: usize, handed_out: &[u8]) -> usize
    requires { 0 < length handed_out.now → length handed_out.now % 3 ≡ 2 }
    ensures { PutInRoom at (lines_text (Lines.caption_lines handed_out.now)) out.old result out.new }
{
    if handed_out.len() == 0 {
        return line(out, at, b"captions none");
    }
    let count = handed_out.len() / Packet::TRIPLET_LEN;
    let counted = number(out, at, b"captions ", count as u64);
    let ended = line(out, counted, b"");
    triplets(out, ended, handed_out)
}

fn triplets(out: &mut [u8], from: usize, handed_out: &[u8]) -> usize
    requires { length handed_out.now % 3 ≡ 2 }
    ensures { PutInRoom from (lines_text (made (Lines.triplet_line handed_out.now) (length handed_out.now / 3))) out.old result out.new }
{
    let (whole, _) = handed_out[Packet::SECTION_HEAD_LEN..].as_chunks::<{ Packet::TRIPLET_LEN }>();
    let mut at = from;
    for [first, second, third] in whole {
        at = triplet(out, at, *first, *second, *third);
    }
    at
}

fn triplet(out: &mut [u8], at: usize, first: u8, second: u8, third: u8) -> usize
    ensures { PutInRoom at (line_text (hex_after "" first ++ hex_after " " second ++ hex_after " " third)) out.old result out.new }
{
    let one = hex(out, at, b"", first);
    let two = hex(out, one, b" ", second);
    let three = hex(out, two, b" ", third);
    line(out, three, b"")
}
