// Rule 7: the service section, tested.
ghost use Rattle.std.specs.Prelude.{[], ◌≡◌};
ghost use Rattle.service_list.specs.Section.{list_with};
ghost use Rattle.read_services.specs.Services.{same_flags};
ghost use Rattle.read_services.specs.Code.{services_tested};

use basis::{Refusal, Refused};
use service_entries::test_section;
use values::{Flags, Packet};

// Tests the section at a place, where the header says that it is there. Its list is made behind the packet's last test,
// by the reader.
#[tactic(auto, using(crate::proofs::ServicesReads::not_there, crate::proofs::ServicesReads::too_short, crate::proofs::ServicesReads::other_id, crate::proofs::ServicesReads::entries_cut, crate::proofs::ServicesReads::near_refused, crate::proofs::ServicesReads::section_refused, crate::proofs::ServicesReads::other_flags, crate::proofs::ServicesReads::services_whole))]
pub fn test_services(packet: &[u8], flags: Flags, at: u8) -> Result<usize, Refused>
    ensures { result ≡ services_tested packet.now flags at }
{
    if !flags.svc_info {
        return Ok(0);
    }
    let size = packet.len();
    let i = at as usize;
    if size < i + Packet::SECTION_HEAD_LEN {
        return Err(Refused::at(
            Refusal::LengthMismatch(i + Packet::SECTION_HEAD_LEN, size),
            size,
        ));
    }
    if packet[i] != Packet::SVC_INFO_ID {
        return Err(Refused::at(Refusal::WrongMagic, i));
    }
    let header = packet[i + 1];
    let length = Packet::SECTION_HEAD_LEN + Packet::SECTION_ENTRY_LEN * (header % 16) as usize;
    if size < i + length {
        return Err(Refused::at(Refusal::LengthMismatch(i + length, size), size));
    }
    if let Err(refused) = test_section(&packet[i..i + length]) {
        return Err(Refused::at(refused.refusal, i + refused.place));
    }
    if !same_flags(header, flags) {
        return Err(Refused::at(Refusal::ServiceFlagsMismatched, 4));
    }
    Ok(length)
}

// Whether the three flags of the section's byte 1 are the header's.
#[tactic(auto, using(crate::proofs::ServicesReads::start_differs, crate::proofs::ServicesReads::change_differs, crate::proofs::ServicesReads::complete_decides))]
fn same_flags(byte: u8, flags: Flags) -> bool
    ensures { result ≡ same_flags (list_with byte []) flags }
{
    if (byte / 64 % 2 == 1) != flags.svc_info_start {
        return false;
    }
    if (byte / 32 % 2 == 1) != flags.svc_info_change {
        return false;
    }
    (byte / 16 % 2 == 1) == flags.svc_info_complete
}
