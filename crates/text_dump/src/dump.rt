// The whole text for an input, and the buffer that it takes.
ghost use Rattle.std.specs.Prelude.{[], ◌∷◌, ◌≡◌};
ghost use Rattle.text.specs.Lines.{lines_text};
ghost use Rattle.text.specs.Room.{PutInRoom};
ghost use Rattle.text.specs.Whole.{most_input, text_written};
ghost use Rattle.text_dump.specs.Dump.{dump_text, most_text, packet_lines};

use crate::lines;
use basis::Answer;
use reader::CDPParser;
use text::{line, put_whole};

// Its constants and its one call.
#[derive(Clone, Copy)]
pub struct Dump {}

impl Dump {
    // The most bytes that are taken. No packet has so many, and the reader says so.
    pub const MOST_INPUT: usize = 4096;

    // The greatest length of a text.
    pub const MOST_TEXT: usize = 894;

    // Nothing calls this: its contract holds the constants above.
    fn held() -> [usize; 2]
        ensures { result ≡ most_input ∷ most_text ∷ [] }
    {
        [Self::MOST_INPUT, Self::MOST_TEXT]
    }

    // Puts the text for an input into the lent buffer and answers with its length, or answers 11 where the buffer is too
    // short, and writes nothing.
    pub fn write_into(input: &[u8], out: &mut [u8]) -> Answer
        ensures value { result ≡ (text_written (dump_text input.now) out.old).answer }
        ensures out_after { out.new ≡ (text_written (dump_text input.now) out.old).buffer }
    {
        // Here and in text_why: a function of both is public, and requires of its closure what no public one may.
        let mut text = [0u8; Self::MOST_TEXT];
        let length = text_of(input, &mut text);
        put_whole(out, &text[..length])
    }
}

fn text_of(input: &[u8], out: &mut [u8]) -> usize
    ensures { PutInRoom 0 (dump_text input.now) out.old result out.new }
{
    if Dump::MOST_INPUT < input.len() {
        return line(out, 0, b"input too long");
    }
    packet(input, out)
}

// A new reader reads the packet. Only what is accepted is shown.
fn packet(bytes: &[u8], out: &mut [u8]) -> usize
    ensures { PutInRoom 0 (lines_text (packet_lines bytes.now)) out.old result out.new }
{
    let mut captions = [0u8; CDPParser::CAPTION_ROOM];
    let new = CDPParser::new();
    let read = new.parse(bytes, &mut captions);
    let answer = read.answer;
    let parser = read.parser;
    let answered = text::answer(out, 0, answer);
    if !answer.is_done() {
        return answered;
    }
    let length = answer.first;
    lines::shown(out, answered, parser, &captions[..length])
}
