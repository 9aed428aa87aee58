// A whole text in a lent buffer.
ghost use Rattle.std.specs.Prelude.{◌≡◌};
ghost use Rattle.text.specs.Whole.{text_written};

use basis::{Answer, Refusal};

// Puts the text at the buffer's start and answers with its length, or answers 11 and writes nothing.
pub fn put_whole(out: &mut [u8], text: &[u8]) -> Answer
    ensures value { result ≡ (text_written text.now out.old).answer }
    ensures out_after { out.new ≡ (text_written text.now out.old).buffer }
{
    let needed = text.len();
    let room = out.len();
    if room < needed {
        return Answer::from(Refusal::BufferTooShort(needed, room));
    }
    basis::put(out, 0, text);
    Answer::done(needed)
}
