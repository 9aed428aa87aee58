// Where the parts of a packet stand. Bytes past its end count as 0.
ghost use Rattle.std.specs.Prelude.{◌≡◌};
ghost use Rattle.read_packet.specs.Packet.{captions_at, closing_at, services_at};

use basis::byte_at;
use values::{Flags, Packet};

pub(crate) fn captions_at(packet: &[u8]) -> usize
    ensures { result ≡ captions_at packet.now }
{
    let flags = Flags::from(byte_at(packet, 4));
    if flags.time_code {
        return Packet::HEADER_LEN + Packet::TIME_CODE_LEN;
    }
    Packet::HEADER_LEN
}

// The same as `closing_at` but for flag, mask and unit: one function of both would take all three, and bounds for them.
pub fn services_at(packet: &[u8]) -> usize
    ensures { result ≡ services_at packet.now }
{
    let at = captions_at(packet);
    let flags = Flags::from(byte_at(packet, 4));
    if flags.cc_data {
        let count = byte_at(packet, at + 1) % 32;
        return at + (Packet::SECTION_HEAD_LEN + Packet::TRIPLET_LEN * count as usize);
    }
    at
}

pub(crate) fn closing_at(packet: &[u8]) -> usize
    ensures { result ≡ closing_at packet.now }
{
    let at = services_at(packet);
    let flags = Flags::from(byte_at(packet, 4));
    if flags.svc_info {
        let count = byte_at(packet, at + 1) % 16;
        return at + (Packet::SECTION_HEAD_LEN + Packet::SECTION_ENTRY_LEN * count as usize);
    }
    at
}
