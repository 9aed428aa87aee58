// What the test takes.
ghost use Rattle.std.specs.Prelude.{◌≡◌};
ghost use Rattle.explain_tests.specs.Tests.{size_row};
ghost use Rattle.text.specs.Room.{PutInRoom};
ghost use Rattle.text_values.specs.Values as Values;

use crate::bytes::two;
use crate::runs::taken;
use basis::SizeTest;
use explain::{FailedSize, Reason};
use text::{number, word};

// A size, two bytes, or the values of one byte.
pub fn allowed(out: &mut [u8], at: usize, reason: Reason) -> usize
    ensures { PutInRoom at (Values.allowed_text reason) out.old result out.new }
{
    match reason {
        Reason::Accepted => at,
        Reason::OfSize(failed) => size(out, at, failed),
        Reason::OfPair(failed) => two(out, at, failed.first, failed.second),
        Reason::OfByte(failed) => {
            let test = failed.test;
            taken(out, at, test, failed.said)
        }
    }
}

fn size(out: &mut [u8], at: usize, failed: FailedSize) -> usize
    ensures { PutInRoom at (Values.size_text failed) out.old result out.new }
{
    let named = number(out, at, b"size ", failed.bytes as u64);
    let test = failed.test;
    if exact(test) {
        return named;
    }
    word(out, named, b" or more")
}

// Whether no other size will do.
fn exact(test: SizeTest) -> bool
    ensures { result ≡ (size_row test).exact }
{
    match test {
        SizeTest::CaptionRoom => false,
        SizeTest::PacketLeast => false,
        SizeTest::PacketSize => true,
        SizeTest::TimeWhole => false,
        SizeTest::CaptionsHead => false,
        SizeTest::CaptionsWhole => false,
        SizeTest::ServicesHead => false,
        SizeTest::ServicesWhole => false,
        SizeTest::SectionHead => false,
        SizeTest::SectionSize => true,
        SizeTest::ClosingHead => false,
        SizeTest::FutureWhole => false,
        SizeTest::FutureNext => false,
        SizeTest::FooterWhole => false,
    }
}
