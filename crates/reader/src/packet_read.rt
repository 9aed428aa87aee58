// One packet, read with no state and no caption buffer.
ghost use Rattle.std.specs.Prelude.{◌≡◌};
ghost use Rattle.reader.specs.Code.{packet_read};

use crate::parser::CDPParser;
use crate::shown::shown;
use basis::Refused;
use read_packet::Checked;

// What an accepted packet makes the reader show, and its captions: how many bytes are handed out, and where they stand.
#[derive(Clone, Copy)]
pub struct PacketRead {
    pub shown: CDPParser,
    pub captions: usize,
    pub captions_at: u8,
}

impl PacketRead {
    #[tactic(auto, using(crate::proofs::PacketShown::packet_refused))]
    pub fn parse(packet: &[u8]) -> Result<Self, Refused>
        ensures { result ≡ packet_read packet.now }
    {
        let read = Checked::parse(packet)?;
        Ok(Self {
            shown: shown(read, packet),
            captions: read.captions,
            captions_at: read.captions_at,
        })
    }
}
