// Writing: a list as a section.
ghost use Rattle.std.specs.Prelude.{◌≡◌, ◌≤◌};
ghost use Rattle.service_list.specs.SectionWriting as Writing;
ghost use Rattle.service_list.specs.Code.{value_answer};

use crate::list::ServiceInfo;
use basis::{Answer, Refusal, flag};
use service_entry::ServiceEntry;
use values::Packet;

impl ServiceInfo {
    // Whether the list can be written: its count, then its entries.
    pub fn writable(self) -> Answer
        ensures { result ≡ value_answer self }
    {
        let count = self.count;
        let services = self.services;
        if Self::PLACES < count {
            return Answer::from(Refusal::WouldOverflow);
        }
        // With no room nothing is put, and the entries are tested.
        let mut none = [0u8; 0];
        if !ServiceEntry::put_all(services, count, 0, &mut none) {
            return Answer::from(Refusal::NotWritable);
        }
        Answer::done(0)
    }

    // Writes the section at the start of the lent bytes, each byte once: the entries, then the two bytes before them.
    pub fn write_into(self, out: &mut [u8]) -> Answer
        ensures value { result ≡ (Writing.section_written self out.old).answer }
        ensures out_after { out.new ≡ (Writing.section_written self out.old).buffer }
    {
        let length = self.byte_len();
        if !length.is_done() {
            return length;
        }
        let services = self.services;
        if !ServiceEntry::put_all(services, self.count, Packet::SECTION_HEAD_LEN, out) {
            return Answer::from(Refusal::NotWritable);
        }
        let needed = length.first;
        let room = out.len();
        if room < needed {
            return Answer::from(Refusal::BufferTooShort(needed, room));
        }
        out[0] = Packet::SVC_INFO_ID;
        out[1] = self.header_byte();
        length
    }

    // Byte 1: the flags above the count.
    fn header_byte(self) -> u8
        requires { self.count ≤ 15 }
        ensures { result ≡ Writing.section_byte self }
    {
        0x80 + flag(self.start, 0x40)
            + flag(self.change, 0x20)
            + flag(self.complete, 0x10)
            + self.count as u8
    }
}
