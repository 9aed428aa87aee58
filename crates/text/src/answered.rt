// The line of an answer.
ghost use Rattle.text.specs.Answers.{answer_line};
ghost use Rattle.text.specs.Lines.{line_text};
ghost use Rattle.text.specs.Room.{PutInRoom};

use crate::digits::number;
use crate::room::line;
use basis::Answer;

// Of the answers that a packet can get, 1 alone has two numbers to show.
pub fn answer(out: &mut [u8], at: usize, shown: Answer) -> usize
    ensures { PutInRoom at (line_text (answer_line shown)) out.old result out.new }
{
    let named = number(out, at, b"answer ", shown.number as u64);
    if shown.number == 1 {
        let first = number(out, named, b" expected ", shown.first as u64);
        let second = number(out, first, b" actual ", shown.second as u64);
        return line(out, second, b"");
    }
    line(out, named, b"")
}
