// Rules E1 to E4: the six bytes of an entry, read.
ghost use Rattle.std.specs.Prelude.{◌≡◌};
ghost use Rattle.service_entry.specs.Entry as Entry;
ghost use Rattle.service_entry.specs.Service as Service;

use crate::service::{DigitalServiceEntry, FieldOrService};
use basis::{Refusal, Refused};

#[derive(Clone, Copy)]
pub struct ServiceEntry {
    pub language: [u8; 3],
    pub service: FieldOrService,
}

impl ServiceEntry {
    // What stands in a list's places past its count: no language, field 1.
    pub const FILLER: Self = Self {
        language: [0, 0, 0],
        service: FieldOrService::Field(true),
    };

    // Nothing calls this: its contract holds the constant above to the rules.
    fn held() -> Self
        ensures { result ≡ Service.filler }
    {
        Self::FILLER
    }

    // Both values as they are.
    pub fn new(language: [u8; 3], service: FieldOrService) -> Self
        ensures { result ≡ Service.entry language service }
    {
        Self { language, service }
    }

    // What the six bytes hold. Only what `parse` has tested comes here.
    fn of_bytes(bytes: [u8; 6]) -> Self
        ensures { result ≡ Entry.entry_of bytes }
    {
        Self {
            language: [bytes[0], bytes[1], bytes[2]],
            service: service_of(bytes[3], bytes[4]),
        }
    }

    // Reads the six bytes. Number 0 is answered before bytes 4 and 5 are looked at.
    #[tactic(auto, using(crate::proofs::EntryReads::no_40, crate::proofs::EntryReads::no_number, crate::proofs::EntryReads::no_3_e, crate::proofs::EntryReads::no_3_f, crate::proofs::EntryReads::no_ff, crate::proofs::EntryReads::all_right))]
    pub fn parse(bytes: [u8; 6]) -> Result<Self, Refused>
        ensures { result ≡ Entry.entry_read bytes }
    {
        let kind = bytes[3];
        let flags = bytes[4];
        let last = bytes[5];
        // Bit 40 is set.
        if kind / 64 % 2 != 1 {
            return Err(Refused::at(Refusal::InvalidFixedBits, 3));
        }
        if kind / 128 % 2 == 1 {
            // A digital number, which is not 0.
            if kind % 64 == 0 {
                return Err(Refused::at(Refusal::InvalidServiceNumber, 3));
            }
        } else {
            // A field: all of 3E is set.
            if kind / 2 % 32 != 31 {
                return Err(Refused::at(Refusal::InvalidFixedBits, 3));
            }
        }
        // All of 3F is set.
        if flags % 64 != 63 {
            return Err(Refused::at(Refusal::InvalidFixedBits, 4));
        }
        if last != 0xFF {
            return Err(Refused::at(Refusal::InvalidFixedBits, 5));
        }
        Ok(Self::of_bytes(bytes))
    }

    // What is shown of a reading: the entry, or the filler where it was refused.
    pub fn shown(read: Result<Self, Refused>) -> Self
        ensures { result ≡ Service.entry_shown read }
    {
        read.unwrap_or(Self::FILLER)
    }
}

// What bytes 3 and 4 name, whatever their fixed bits are.
fn service_of(kind: u8, flags: u8) -> FieldOrService
    ensures { result ≡ Entry.service_of kind flags }
{
    if kind / 128 % 2 == 1 {
        FieldOrService::Service(DigitalServiceEntry {
            service: kind % 64,
            easy_reader: flags / 128 % 2 == 1,
            wide_aspect_ratio: flags / 64 % 2 == 1,
        })
    } else {
        // Bit 01 is clear for field 1.
        FieldOrService::Field(kind % 2 == 0)
    }
}
