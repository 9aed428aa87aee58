// Rule 6: the captions, tested.
ghost use Rattle.std.specs.Prelude.{◌≡◌};
ghost use Rattle.read_captions.specs.Code.{captions_tested};

use basis::{Refusal, Refused};
use values::Packet;

// Tests the section at a place, where the header says that it is there. Its captions are handed out behind the packet's
// last test, by the reader.
pub fn test_captions(packet: &[u8], present: bool, at: u8) -> Result<usize, Refused>
    ensures { result ≡ captions_tested packet.now present at }
{
    if !present {
        return Ok(0);
    }
    let size = packet.len();
    let i = at as usize;
    // Not shared with the other sections: the edits caption_header_that_fits_refused, service_header_that_fits_refused and
    // time_code_id_72 try each head by itself.
    if size < i + Packet::SECTION_HEAD_LEN {
        return Err(Refused::at(
            Refusal::LengthMismatch(i + Packet::SECTION_HEAD_LEN, size),
            size,
        ));
    }
    if packet[i] != Packet::CC_DATA_ID {
        return Err(Refused::at(Refusal::WrongMagic, i));
    }
    let header = packet[i + 1];
    // All of E0 is set.
    if header / 32 % 8 != 7 {
        return Err(Refused::at(Refusal::InvalidFixedBits, i + 1));
    }
    let length = Packet::SECTION_HEAD_LEN + Packet::TRIPLET_LEN * (header % 32) as usize;
    if size < i + length {
        return Err(Refused::at(Refusal::LengthMismatch(i + length, size), size));
    }
    Ok(length)
}
