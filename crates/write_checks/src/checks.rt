// Writing a packet: the checks of the parts other than the services, in their order, and how long these parts are.
ghost use Rattle.std.specs.Prelude.{◌≡◌};
ghost use Rattle.write_checks.specs.Code as Code;

use basis::{Answer, Refusal};
use values::{Framerate, Packet};
use values_time::MaybeTimeCode;

// What testing something that is to be written gives: the answer, its length, and the time code's four bytes, which the
// test makes. The length is 0 where it is not held, and beside a refusal; the bytes are zeros there.
#[derive(Clone, Copy)]
pub struct WriteTested {
    pub answer: Answer,
    pub length: usize,
    pub time_code: [u8; 4],
}

impl WriteTested {
    fn alone(answer: Answer) -> Self
        ensures { result ≡ Code.without_length answer }
    {
        Self {
            answer,
            length: 0,
            time_code: [0; 4],
        }
    }
}

// Whether a packet can be written but for its services, whose writer tests them, and how long it is without them.
#[tactic(auto, using(crate::proofs::Tests::other_rate, crate::proofs::Tests::run_long, crate::proofs::Tests::run_cut, crate::proofs::Tests::tested_most, crate::proofs::Tests::time_refused))]
pub fn others_writable(framerate: Framerate, time_code: MaybeTimeCode, run: usize) -> WriteTested
    ensures { result ≡ Code.others_write_tested framerate time_code run }
{
    if !framerate.is_known() {
        return WriteTested::alone(Answer::from(Refusal::UnknownFramerate));
    }
    if Packet::CAPTION_RUN < run {
        return WriteTested::alone(Answer::from(Refusal::WrongCaptionRun));
    }
    if run % Packet::TRIPLET_LEN != 0 {
        return WriteTested::alone(Answer::from(Refusal::WrongCaptionRun));
    }
    let timed = time_code_tested(time_code);
    let answer = timed.answer;
    if !answer.is_done() {
        return WriteTested::alone(answer);
    }
    let bytes = timed.time_code;
    WriteTested {
        answer,
        length: Packet::HEADER_LEN
            + timed.length
            + (Packet::SECTION_HEAD_LEN + run)
            + Packet::FOOTER_LEN,
        time_code: bytes,
    }
}

// 12 where a time code that is held cannot be written.
#[tactic(auto, using(crate::proofs::Tests::no_time, crate::proofs::Tests::bad_time, crate::proofs::Tests::good_time))]
fn time_code_tested(time_code: MaybeTimeCode) -> WriteTested
    ensures { result ≡ Code.time_code_write_tested time_code }
{
    if !time_code.present {
        return WriteTested::alone(Answer::done(0));
    }
    match time_code.time_code.to_bytes() {
        Ok(bytes) => WriteTested {
            answer: Answer::done(0),
            length: Packet::TIME_CODE_LEN,
            time_code: bytes,
        },
        Err(refusal) => WriteTested::alone(Answer::from(refusal)),
    }
}
