// Writing: an entry's bytes, and those of the entries of a list.
ghost use Rattle.std.specs.Prelude.{◌≡◌, true, ◌∷◌, [], ◌+◌, ◌≤◌, length};
ghost use Rattle.basis.specs.Bytes as Bytes;
ghost use Rattle.service_entry.specs.EntryWriting as Writing;
ghost use Rattle.service_entry.specs.Code as Code;

use crate::entry::ServiceEntry;
use crate::service::FieldOrService;
use basis::{Answer, Refusal, flag};

impl ServiceEntry {
    // How many bytes an entry is.
    pub const BYTE_LEN: usize = 6;

    // How many it is in a section, behind its header byte.
    const BYTE_LEN_IN_SECTION: usize = Self::BYTE_LEN + 1;

    // The largest digital number; the least is 1.
    pub const MAX_SERVICE: u8 = 63;

    // Nothing calls this: its contract holds the two public constants above to the rules.
    fn held_limits() -> [usize; 2]
        ensures { result ≡ Writing.entry_length ∷ Writing.most_number ∷ [] }
    {
        [Self::BYTE_LEN, Self::MAX_SERVICE as usize]
    }

    // Writes the entry at the start of the lent bytes.
    pub fn write_into(self, out: &mut [u8]) -> Answer
        ensures value { result ≡ (Writing.entry_written self out.old).answer }
        ensures out_after { out.new ≡ (Writing.entry_written self out.old).buffer }
    {
        if !self.is_writable() {
            return Answer::from(Refusal::NotWritable);
        }
        let room = out.len();
        if room < Self::BYTE_LEN {
            return Answer::from(Refusal::BufferTooShort(Self::BYTE_LEN, room));
        }
        self.put_at(0, out);
        Answer::done(Self::BYTE_LEN)
    }

    // Whether so many of these entries can be written; then, if there is room for all, they are put from a place on, each
    // behind its header byte. Both loops stand here, since each function that indexes the array stores it once more.
    #[tactic(auto, using(crate::proofs::EntriesWrites::taken_goes_on))]
    pub fn put_all(services: [Self; 15], count: usize, at: usize, out: &mut [u8]) -> bool
        ensures value { result ≡ Code.places_writable services count }
        ensures out_after { out.new ≡ Code.entries_left services count at out.old }
    {
        if 15 < count {
            return false;
        }
        for entry in &services[..count] {
            if !entry.is_writable() {
                return false;
            }
        }
        let room = out.len();
        let needed = Self::BYTE_LEN_IN_SECTION * count;
        if room < needed || room - needed < at {
            return true;
        }
        // By number, since an entry's place hangs on it.
        for k in 0..count {
            let entry = services[k];
            entry.put_in_section(at + Self::BYTE_LEN_IN_SECTION * k, out);
        }
        true
    }

    // Whether the entry can be written: either field, and the digital numbers 1 to 63.
    pub fn is_writable(self) -> bool
        ensures { result ≡ Writing.writable self.service }
    {
        let service = self.service;
        match service {
            FieldOrService::Field(_) => true,
            FieldOrService::Service(digital) => {
                1 <= digital.service && digital.service <= Self::MAX_SERVICE
            }
        }
    }

    // The entry behind its header byte, as a section has it. That it can be written is asked of the caller: a private type
    // that says so would be longer than the four clauses here.
    fn put_in_section(self, at: usize, out: &mut [u8])
        requires service_writable { Writing.writable self.service ≡ true }
        requires at_in_bounds { at + Writing.seven_length ≤ length out.old }
        ensures { out.new ≡ Bytes.over at (Writing.seven_bytes self) out.old }
    {
        let service = self.service;
        out[at] = header_byte(service);
        self.put_at(at + 1, out);
    }

    // The entry's six bytes, each straight to its place.
    fn put_at(self, at: usize, out: &mut [u8])
        requires service_writable { Writing.writable self.service ≡ true }
        requires at_in_bounds { at + Writing.entry_length ≤ length out.old }
        ensures { out.new ≡ Bytes.over at (Writing.entry_bytes self) out.old }
    {
        let language = self.language;
        let service = self.service;
        out[at] = language[0];
        out[at + 1] = language[1];
        out[at + 2] = language[2];
        out[at + 3] = kind_byte(service);
        out[at + 4] = flags_byte(service);
        out[at + 5] = 0xFF;
    }
}

// Byte 3.
fn kind_byte(service: FieldOrService) -> u8
    requires { Writing.writable service ≡ true }
    ensures { result ≡ Writing.kind_byte service }
{
    match service {
        FieldOrService::Field(first) => { if first { 0x7E } else { 0x7F } }
        FieldOrService::Service(digital) => 0xC0 + digital.service,
    }
}

// Byte 4: the two flags above 3F.
fn flags_byte(service: FieldOrService) -> u8
    ensures { result ≡ Writing.flags_byte service }
{
    match service {
        FieldOrService::Field(_) => 0x3F,
        FieldOrService::Service(digital) => {
            flag(digital.easy_reader, 0x80) + flag(digital.wide_aspect_ratio, 0x40) + 0x3F
        }
    }
}

// The byte in front of an entry in a section. Field 2 gets 81, as in the Rust, which no reader takes.
fn header_byte(service: FieldOrService) -> u8
    requires { Writing.writable service ≡ true }
    ensures { result ≡ Writing.header_byte service }
{
    match service {
        FieldOrService::Field(first) => { if first { 0x80 } else { 0x81 } }
        FieldOrService::Service(digital) => 0x80 + digital.service,
    }
}
