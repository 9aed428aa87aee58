// The entries of a section, read: tested first, then made.
ghost use Rattle.std.specs.Prelude.{◌≡◌};
ghost use Rattle.basis.specs.Check.{verdict, clear};
ghost use Rattle.values.specs.Layout.{section_head_size};
ghost use Rattle.service_entries.specs.Entries as Entries;
ghost use Rattle.service_entries.specs.Code as Code;

use crate::section_tests::{six_behind, test_section};
use basis::Refused;
use service_entry::ServiceEntry;
use values::Packet;

// The filler in all places.
pub fn fillers() -> [ServiceEntry; 15]
    ensures { result ≡ Entries.fillers }
{
    let filler = ServiceEntry::FILLER;
    [filler; 15]
}

// Reads the entries of a section that stands alone: those in the first places, the filler in the others.
#[tactic(auto, using(crate::proofs::SectionEntries::entries_refused, crate::proofs::SectionEntries::section_clear, crate::proofs::SectionEntries::entries_read_lem))]
pub fn read_entries(data: &[u8]) -> Result<[ServiceEntry; 15], Refused>
    ensures { result ≡ Code.entries_read «data».now }
{
    test_section(data)?;
    Ok(places(data))
}

// The places of a section that is right.
fn places(data: &[u8]) -> [ServiceEntry; 15]
    requires { verdict (Entries.section_checks «data».now) ≡ clear }
    ensures { result ≡ Entries.filled (Entries.entries_of «data».now section_head_size (Entries.count_of «data».now)) }
{
    let count = (data[1] % 16) as usize;
    let mut services = fillers();
    // By number, since both places of an entry hang on it.
    for k in 0..count {
        let at = Packet::SECTION_HEAD_LEN + Packet::SECTION_ENTRY_LEN * k;
        // Proved: of a section that is right every entry is.
        services[k] = ServiceEntry::parse(six_behind(data, at)).unwrap();
    }
    services
}
