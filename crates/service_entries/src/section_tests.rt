// Rules S1 to S8: a section, tested.
ghost use Rattle.std.specs.Prelude.{◌≡◌, ◌+◌, ◌≤◌, length};
ghost use Rattle.values.specs.Layout.{section_entry_size};
ghost use Rattle.service_entries.specs.Entries as Entries;
ghost use Rattle.service_entries.specs.Code as Code;
ghost use Rattle.service_entry.specs.Service as Service;

use basis::{Refusal, Refused};
use service_entry::{FieldOrService, ServiceEntry};
use values::Packet;

// Tests a section that stands alone, and makes nothing of it. Places are counted from the section's first byte.
#[tactic(auto, using(crate::proofs::SectionEntries::too_short, crate::proofs::SectionEntries::other_id, crate::proofs::SectionEntries::no_80, crate::proofs::SectionEntries::other_size))]
pub fn test_section(data: &[u8]) -> Result<(), Refused>
    ensures { result ≡ Code.section_outcome «data».now }
{
    let size = data.len();
    if size < Packet::SECTION_HEAD_LEN {
        return Err(Refused::at(
            Refusal::LengthMismatch(Packet::SECTION_HEAD_LEN, size),
            size,
        ));
    }
    if data[0] != Packet::SVC_INFO_ID {
        return Err(Refused::at(Refusal::WrongMagic, 0));
    }
    let header = data[1];
    // Bit 80 is set.
    if header / 128 % 2 != 1 {
        return Err(Refused::at(Refusal::InvalidFixedBits, 1));
    }
    let expected = Packet::SECTION_HEAD_LEN + Packet::SECTION_ENTRY_LEN * (header % 16) as usize;
    if size != expected {
        return Err(Refused::at(Refusal::LengthMismatch(expected, size), size));
    }
    test_entries(data, header)
}

// Tests the entries behind the section's two bytes, first to last.
#[tactic(auto, using(crate::proofs::SectionPlaces::at_near_refused, crate::proofs::SectionEntries::section_refused, crate::proofs::SectionEntries::left_goes_on, crate::proofs::SectionEntries::section_whole))]
fn test_entries(data: &[u8], header: u8) -> Result<(), Refused>
    requires { Code.Framed «data».now header }
    ensures { result ≡ Code.section_outcome «data».now }
{
    let count = (header % 16) as usize;
    // By number, since a refusal's place hangs on it.
    for k in 0..count {
        let at = Packet::SECTION_HEAD_LEN + Packet::SECTION_ENTRY_LEN * k;
        if let Err(refused) = test_at(data, at) {
            return Err(Refused::at(refused.refusal, at + refused.place));
        }
    }
    Ok(())
}

// Tests the header byte at a place and the entry behind it. Its places are counted from the header byte.
#[tactic(auto, using(service_entry::proofs::EntryReads::entry_near_refused, crate::proofs::SectionEntries::header_no_80, crate::proofs::SectionEntries::header_no_20, crate::proofs::SectionEntries::entry_refused, crate::proofs::SectionEntries::other_number, crate::proofs::SectionEntries::same_number))]
fn test_at(data: &[u8], at: usize) -> Result<(), Refused>
    requires { at + section_entry_size ≤ length «data».now }
    ensures { result ≡ Code.entry_outcome «data».now at }
{
    let header = data[at];
    // Bit 80 is set.
    if header / 128 % 2 != 1 {
        return Err(Refused::at(Refusal::InvalidFixedBits, 0));
    }
    // Bit 40 is clear, or 20 is set too.
    if header / 32 % 4 == 2 {
        return Err(Refused::at(Refusal::InvalidFixedBits, 0));
    }
    let entry = match ServiceEntry::parse(six_behind(data, at)) {
        Ok(entry) => entry,
        Err(refused) => return Err(Refused::at(refused.refusal, 1 + refused.place)),
    };
    if named_by(header) != number_of(entry.service) {
        return Err(Refused::at(Refusal::ServiceNumberMismatch, 0));
    }
    Ok(())
}

// The six bytes behind a header byte.
pub(crate) fn six_behind(data: &[u8], at: usize) -> [u8; 6]
    requires { at + section_entry_size ≤ length «data».now }
    ensures { result ≡ Entries.six_behind «data».now at }
{
    [
        data[at + 1],
        data[at + 2],
        data[at + 3],
        data[at + 4],
        data[at + 5],
        data[at + 6],
    ]
}

// The number that an entry's header byte names.
fn named_by(header: u8) -> u8
    ensures { result ≡ Entries.named_by header }
{
    if header / 64 % 2 == 1 {
        header % 32
    } else {
        header % 64
    }
}

// The number that the header byte has to name.
fn number_of(service: FieldOrService) -> u8
    ensures { result ≡ Service.number_of service }
{
    match service {
        FieldOrService::Field(_) => 0,
        FieldOrService::Service(digital) => digital.service,
    }
}
