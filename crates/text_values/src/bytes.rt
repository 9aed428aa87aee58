// The bytes of the packet that the test looks at.
ghost use Rattle.std.specs.Prelude.{◌≡◌, ◌+◌};
ghost use Rattle.basis.specs.Bytes.{byte};
ghost use Rattle.text.specs.Room.{PutInRoom};
ghost use Rattle.text_values.specs.Values as Values;

use basis::byte_at;
use explain::Reason;
use text::{hex, word};

// For a test of a size there are none.
pub fn found(out: &mut [u8], at: usize, packet: &[u8], place: usize, reason: Reason) -> usize
    ensures { PutInRoom at (Values.found_text packet.now place reason) out.old result out.new }
{
    match reason {
        Reason::Accepted => at,
        Reason::OfSize(_) => word(out, at, b"none"),
        Reason::OfPair(_) => two(out, at, byte_at(packet, place), byte_behind(packet, place)),
        Reason::OfByte(_) => hex(out, at, b"", byte_at(packet, place)),
    }
}

// Puts two bytes.
pub(crate) fn two(out: &mut [u8], at: usize, first: u8, second: u8) -> usize
    ensures { PutInRoom at (Values.two_bytes first second) out.old result out.new }
{
    let between = hex(out, at, b"", first);
    hex(out, between, b" ", second)
}

// The byte behind a place; past the end there is none, so that no place is too great.
fn byte_behind(bytes: &[u8], at: usize) -> u8
    ensures { result ≡ byte bytes.now (at + 1) }
{
    if at < bytes.len() {
        byte_at(bytes, at + 1)
    } else {
        0
    }
}
