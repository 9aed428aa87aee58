// Rule 7, behind a packet's last test: its service list, made straight from the packet's bytes.
ghost use Rattle.std.specs.Prelude.{cond, true, ◌≡◌, ◌+◌, ◌*◌, ◌-◌, ◌≤◌, length};
ghost use Rattle.basis.specs.Bytes.{byte};
ghost use Rattle.basis.specs.Check.{verdict, clear};
ghost use Rattle.values.specs.Layout.{section_entry_size};
ghost use Rattle.service_entry.specs.Entry as Entry;
ghost use Rattle.service_entries.specs.Entries as Entries;
ghost use Rattle.read_header.specs.Header.{flags_in};
ghost use Rattle.read_services.specs.Services.{services_of};
ghost use Rattle.read_packet.specs.Packet.{packet_checks, services_at};

use service_entries::fillers;
use service_entry::{DigitalServiceEntry, FieldOrService, ServiceEntry};
use service_list::{MaybeServiceInfo, ServiceInfo};
use values::{Flags, Packet};

// The list of an accepted packet with these flags, whose services begin at this place; none where there is no flag for
// them. One place makes both. Nothing can call it of a packet that breaks a rule; the section's own reader makes its list
// in the same way, and that is private too.
pub(crate) fn list(packet: &[u8], flags: Flags, at: u8) -> MaybeServiceInfo
    requires packet_clear { verdict (packet_checks packet.now) ≡ clear }
    requires flags_value { flags ≡ flags_in packet.now }
    requires at_value { at ≡ services_at packet.now }
    ensures { result ≡ services_of packet.now flags.svc_info at }
{
    let i = at as usize;
    let header = header(packet, flags.svc_info, i + 1);
    let count = (header % 16) as usize;
    let services = places(packet, i + Packet::SECTION_HEAD_LEN, count);
    MaybeServiceInfo {
        present: flags.svc_info,
        service_info: ServiceInfo {
            start: header / 64 % 2 == 1,
            change: header / 32 % 2 == 1,
            complete: header / 16 % 2 == 1,
            services,
            count,
        },
    }
}

// The section's byte 1; without a section 0, which is no flag and no entry.
fn header(packet: &[u8], present: bool, at: usize) -> u8
    requires { present ≡ true → at + 1 ≤ length packet.now }
    ensures { result ≡ cond present (byte packet.now at) 0 }
{
    if present { packet[at] } else { 0 }
}

// So many entries from a place on, and fillers behind them.
fn places(packet: &[u8], from: usize, count: usize) -> [ServiceEntry; 15]
    requires count_bound { count ≤ 15 }
    requires count_in_bounds { section_entry_size * count ≤ length packet.now - from }
    ensures { result ≡ Entries.filled (Entries.entries_of packet.now from count) }
{
    let mut services = fillers();
    // By number, since both places of an entry hang on it.
    for k in 0..count {
        let entry = entry(packet, from + Packet::SECTION_ENTRY_LEN * k);
        services[k] = entry;
    }
    services
}

// The entry behind the header byte at a place. Made so, and not by the entry's own reader, it is tested once and not twice.
fn entry(packet: &[u8], at: usize) -> ServiceEntry
    requires { at + section_entry_size ≤ length packet.now }
    ensures { result ≡ Entry.entry_of (Entries.six_behind packet.now at) }
{
    ServiceEntry {
        language: [packet[at + 1], packet[at + 2], packet[at + 3]],
        service: service_of(packet[at + 4], packet[at + 5]),
    }
}

// What an entry's bytes 3 and 4 name, as in service_entry: there it is private, so that no public function makes an entry
// of bytes that it does not test (nothing_from_refused).
fn service_of(kind: u8, flags: u8) -> FieldOrService
    ensures { result ≡ Entry.service_of kind flags }
{
    if kind / 128 % 2 == 1 {
        FieldOrService::Service(DigitalServiceEntry {
            service: kind % 64,
            easy_reader: flags / 128 % 2 == 1,
            wide_aspect_ratio: flags / 64 % 2 == 1,
        })
    } else {
        // Bit 01 is clear for field 1.
        FieldOrService::Field(kind % 2 == 0)
    }
}
