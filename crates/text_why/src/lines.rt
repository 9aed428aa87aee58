// All lines of a packet.
ghost use Rattle.std.specs.Prelude.{◌++◌};
ghost use Rattle.text.specs.Ascii.{ascii};
ghost use Rattle.text.specs.Digits.{number_after};
ghost use Rattle.text.specs.Lines.{line_text, lines_text};
ghost use Rattle.text.specs.Room.{PutInRoom};
ghost use Rattle.explain.specs.Why.{reason_rule};
ghost use Rattle.text_values.specs.Values as Values;
ghost use Rattle.text_why.specs.Explained as Explained;

use basis::Test;
use explain::{Reason, Why, reason_rule};
use text::{line, number, word};
use text_values::{allowed, found};
use text_words::refused;

// One line for a packet that is accepted; for a refusal what is said of its test, and five more.
pub(crate) fn lines(out: &mut [u8], at: usize, packet: &[u8], why: Why) -> usize
    ensures { PutInRoom at (lines_text (Explained.why_lines packet.now why)) out.old result out.new }
{
    let reason = why.reason;
    match reason {
        Reason::Accepted => line(out, at, b"accepted"),
        Reason::OfSize(failed) => {
            let test = failed.test;
            let said = refused(out, at, Test::Size(test));
            details(out, said, packet, why)
        }
        Reason::OfPair(failed) => {
            let test = failed.test;
            let said = refused(out, at, Test::Pair(test));
            details(out, said, packet, why)
        }
        Reason::OfByte(failed) => {
            let test = failed.test;
            let said = refused(out, at, Test::Byte(test));
            details(out, said, packet, why)
        }
    }
}

// The rule, the answer, the place, what was found there and what is allowed.
fn details(out: &mut [u8], at: usize, packet: &[u8], why: Why) -> usize
    ensures { PutInRoom at (lines_text (Explained.detail_lines packet.now why)) out.old result out.new }
{
    let answer = why.answer;
    let reason = why.reason;
    let ruled = rule_line(out, at, reason);
    let answered = text::answer(out, ruled, answer);
    let placed = place_line(out, answered, why.place);
    let found = found_line(out, placed, packet, why.place, reason);
    allowed_line(out, found, reason)
}

fn rule_line(out: &mut [u8], at: usize, reason: Reason) -> usize
    ensures { PutInRoom at (line_text (number_after "rule " (reason_rule reason))) out.old result out.new }
{
    let rule = reason_rule(reason);
    let named = number(out, at, b"rule ", rule as u64);
    line(out, named, b"")
}

fn place_line(out: &mut [u8], at: usize, place: usize) -> usize
    ensures { PutInRoom at (line_text (number_after "place " place)) out.old result out.new }
{
    let named = number(out, at, b"place ", place as u64);
    line(out, named, b"")
}

fn found_line(out: &mut [u8], at: usize, packet: &[u8], place: usize, reason: Reason) -> usize
    ensures { PutInRoom at (line_text (ascii "found " ++ Values.found_text packet.now place reason)) out.old result out.new }
{
    let named = word(out, at, b"found ");
    let told = found(out, named, packet, place, reason);
    line(out, told, b"")
}

fn allowed_line(out: &mut [u8], at: usize, reason: Reason) -> usize
    ensures { PutInRoom at (line_text (ascii "allowed " ++ Values.allowed_text reason)) out.old result out.new }
{
    let named = word(out, at, b"allowed ");
    let told = allowed(out, named, reason);
    line(out, told, b"")
}
