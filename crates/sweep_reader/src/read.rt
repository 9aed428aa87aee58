// One packet, read and fed to a digest.
ghost use Rattle.std.specs.Prelude.{◌≡◌};
ghost use Rattle.sweep_reader.specs.Read as Read;

use crate::shown;
use basis::Answer;
use reader::CDPParser;
use report::{all_fed, feed, fill, two_fed};

// The digest over all packets read, and how many of them were accepted.
#[derive(Clone, Copy)]
pub struct Tally {
    pub digest: u64,
    pub accepted: u64,
}

impl Tally {
    pub const NONE: Self = Self {
        digest: 0,
        accepted: 0,
    };
}

// Feeds all that a caller sees: the answer, the reader and the caption buffer.
pub fn packet(tally: Tally, held: CDPParser, packet: &[u8], captions: &mut [u8]) -> Tally
    ensures value { result ≡ Read.packet_tallied tally held packet.now captions.old }
    ensures captions_after { captions.new ≡ Read.captions_after packet.now captions.old }
{
    fill(captions);
    let read = held.parse(packet, captions);
    let answer = read.answer;
    let parser = read.parser;
    let answered = answer_fed(tally.digest, answer);
    let state = shown::reader(answered, parser);
    Tally {
        digest: all_fed(state, captions),
        accepted: counted(tally.accepted, answer),
    }
}

// A size in a refusal can be over 255.
fn answer_fed(digest: u64, answer: Answer) -> u64
    ensures { result ≡ Read.answer_fed digest answer }
{
    let number = feed(digest, answer.number);
    two_fed(two_fed(number, answer.first as u64), answer.second as u64)
}

// No line reads so many packets that this wraps.
fn counted(accepted: u64, answer: Answer) -> u64
    ensures { result ≡ Read.counted_in accepted answer }
{
    if answer.is_done() {
        accepted.wrapping_add(1)
    } else {
        accepted
    }
}
