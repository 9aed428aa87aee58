// Rules 2 to 4: the first seven bytes.
ghost use Rattle.std.specs.Prelude.{◌≡◌};
ghost use Rattle.read_header.specs.Code.{header_read};

use basis::{Refusal, Refused};
use values::{Flags, Framerate, Packet, sequence_count};

#[derive(Clone, Copy)]
pub struct Header {
    pub framerate: Framerate,
    pub flags: Flags,
    pub sequence: u16,
}

impl Header {
    #[tactic(auto, using(crate::proofs::HeaderReads::too_short))]
    pub fn parse(packet: &[u8]) -> Result<Self, Refused>
        ensures { result ≡ header_read packet.now }
    {
        let size = packet.len();
        if size < Packet::MIN_PACKET_LEN {
            return Err(Refused::at(Refusal::LengthMismatch(Packet::MIN_PACKET_LEN, size), size));
        }
        if packet[0] != 0x96 {
            return Err(Refused::at(Refusal::WrongMagic, 0));
        }
        if packet[1] != 0x69 {
            return Err(Refused::at(Refusal::WrongMagic, 0));
        }
        let said = packet[2] as usize;
        if said != size {
            return Err(Refused::at(Refusal::LengthMismatch(said, size), size));
        }
        // The high four bits; the low four are not read.
        let Some(framerate) = Framerate::from_id(packet[3] / 16 % 16) else {
            return Err(Refused::at(Refusal::UnknownFramerate, 3));
        };
        Ok(Self {
            framerate,
            flags: Flags::from(packet[4]),
            sequence: sequence_count(packet[5], packet[6]),
        })
    }
}
