// The whole text for an input, and the buffer that it takes.
ghost use Rattle.std.specs.Prelude.{[], ◌∷◌, ◌≡◌};
ghost use Rattle.text.specs.Room.{PutInRoom};
ghost use Rattle.text.specs.Whole.{most_input, text_written};
ghost use Rattle.text_values.specs.Values.{why_most_allowed};
ghost use Rattle.text_why.specs.Explained.{why_most_text, why_text};

use crate::lines::lines;
use basis::Answer;
use explain::Why;
use text::{line, put_whole};

// Its constants and its one call.
#[derive(Clone, Copy)]
pub struct WhyText {}

impl WhyText {
    // The most bytes that are taken. No packet has so many, and the reader says so.
    pub const MOST_INPUT: usize = 4096;

    // No text is longer.
    pub const MOST_TEXT: usize = 1024;

    // Nor is what is allowed, by itself.
    pub const MOST_ALLOWED: usize = 514;

    // Nothing calls this: its contract holds the constants above.
    fn held() -> [usize; 3]
        ensures { result ≡ most_input ∷ why_most_text ∷ why_most_allowed ∷ [] }
    {
        [Self::MOST_INPUT, Self::MOST_TEXT, Self::MOST_ALLOWED]
    }

    // Puts the text for an input into the lent buffer and answers with its length, or answers 11 where the buffer is too
    // short, and writes nothing.
    pub fn write_into(input: &[u8], out: &mut [u8]) -> Answer
        ensures value { result ≡ (text_written (why_text input.now) out.old).answer }
        ensures out_after { out.new ≡ (text_written (why_text input.now) out.old).buffer }
    {
        // Here and in text_dump: a function of both is public, and requires of its closure what no public one may.
        let mut text = [0u8; Self::MOST_TEXT];
        let length = text_of(input, &mut text);
        put_whole(out, &text[..length])
    }
}

fn text_of(input: &[u8], out: &mut [u8]) -> usize
    ensures { PutInRoom 0 (why_text input.now) out.old result out.new }
{
    if WhyText::MOST_INPUT < input.len() {
        return line(out, 0, b"input too long");
    }
    let why = Why::of(input);
    lines(out, 0, input, why)
}
