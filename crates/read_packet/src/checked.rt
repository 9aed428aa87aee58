// Rules 2 to 9, one after the other: whether a packet is accepted, and all that it holds but its service list.
ghost use Rattle.std.specs.Prelude.{◌≡◌};
ghost use Rattle.read_packet.specs.Code.{checked_read};

use basis::Refused;
use read_captions::test_captions;
use read_closing::test_closing;
use read_header::Header;
use read_services::test_services;
use read_time_code::TimeCodeSection;
use values::{Flags, Framerate, Packet};
use values_time::MaybeTimeCode;

// What an accepted packet holds. The list is left for the reader to make when nothing is left that could refuse, so that
// no packet without services copies one.
#[derive(Clone, Copy)]
pub struct Checked {
    pub framerate: Framerate,
    pub time_code: MaybeTimeCode,
    pub sequence: u16,
    pub flags: Flags,
    // How many bytes its captions are, as they are handed out.
    pub captions: usize,
    pub captions_at: u8,
    pub services_at: u8,
}

impl Checked {
    // Each section begins where the one before it ends; the first that is refused is the packet's refusal.
    #[tactic(auto, using(crate::proofs::PacketReads::header_refused, crate::proofs::PacketReads::time_code_refused, crate::proofs::PacketReads::captions_refused, crate::proofs::PacketReads::services_refused, crate::proofs::PacketReads::closing_refused, crate::proofs::PacketReads::packet_accepted, crate::proofs::PacketReads::captions_fit, crate::proofs::PacketReads::services_fit, crate::proofs::PacketReads::closing_fits))]
    pub fn parse(packet: &[u8]) -> Result<Self, Refused>
        ensures { result ≡ checked_read packet.now }
    {
        let header = Header::parse(packet)?;
        let flags = header.flags;
        let timed = TimeCodeSection::parse(packet, flags.time_code, Packet::HEADER_LEN as u8)?;
        let captions_at = Packet::HEADER_LEN + timed.size;
        let captions = test_captions(packet, flags.cc_data, captions_at as u8)?;
        let services_at = captions_at + captions;
        let services = test_services(packet, flags, services_at as u8)?;
        let closing_at = services_at + services;
        test_closing(packet, header.sequence, closing_at as u8)?;
        let framerate = header.framerate;
        let time_code = timed.time_code;
        Ok(Self {
            framerate,
            time_code,
            sequence: header.sequence,
            flags,
            captions,
            captions_at: captions_at as u8,
            services_at: services_at as u8,
        })
    }
}
