// A section, read: its entries, and the list's three flags.
ghost use Rattle.std.specs.Prelude.{◌≡◌};
ghost use Rattle.service_list.specs.Section as Section;
ghost use Rattle.service_list.specs.ServiceList.{list_shown};

use crate::list::ServiceInfo;
use basis::Refused;
use service_entries::read_entries;
use service_entry::ServiceEntry;

impl ServiceInfo {
    // Reads a section that stands alone.
    #[tactic(auto, using(crate::proofs::SectionReads::list_refused, crate::proofs::SectionReads::two_bytes, crate::proofs::SectionReads::list_read))]
    pub fn parse(data: &[u8]) -> Result<Self, Refused>
        ensures { result ≡ Section.section_read «data».now }
    {
        let services = read_entries(data)?;
        Ok(Self::with(data[1], services))
    }

    // What is shown of a reading: the list, or the empty one where it was refused.
    pub fn shown(read: Result<Self, Refused>) -> Self
        ensures { result ≡ list_shown read }
    {
        read.unwrap_or(Self::default())
    }

    // The list that a section's byte 1 and these places make.
    fn with(header: u8, services: [ServiceEntry; 15]) -> Self
        ensures { result ≡ Section.list_with header services }
    {
        Self {
            start: header / 64 % 2 == 1,
            change: header / 32 % 2 == 1,
            complete: header / 16 % 2 == 1,
            services,
            count: (header % 16) as usize,
        }
    }
}
