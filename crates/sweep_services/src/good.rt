// Sections that the reader takes, byte by byte, made from their count of entries.
ghost use Rattle.std.specs.Prelude.{◌≡◌};
ghost use Rattle.sweep_services.specs.Good as Good;

use report::named;
use values::Packet;

// How many bytes the section of a count has.
pub fn size(count: u64) -> u64
    ensures { result ≡ Good.good_size count }
{
    Packet::SECTION_HEAD_LEN as u64 + Packet::SECTION_ENTRY_LEN as u64 * (count % 16)
}

// What stands at a place; behind the section, zeros.
#[tactic(auto, unfolding(crate::specs::Good::good_byte))]
pub fn byte(count: u64, place: u64) -> u8
    ensures { result ≡ Good.good_byte count place }
{
    if place == 0 {
        0x73
    } else if place == 1 {
        (0x80 + count % 8 * 16 + count % 16) as u8
    } else if place < size(count) {
        entry_byte((place - 2) / 7, (place - 2) % 7)
    } else {
        0
    }
}

// The byte of entry k: its header byte, three of language, and the three that name its service.
#[tactic(auto, unfolding(crate::specs::Good::entry_byte))]
fn entry_byte(k: u64, place: u64) -> u8
    ensures { result ≡ Good.entry_byte k place }
{
    let names = named(is_field(k), k / 4, k);
    match place {
        0 => names[0],
        1 => (0x61 + k % 16) as u8,
        2 => (0x71 + k % 16) as u8,
        3 => (0x81 + k % 16) as u8,
        4 => names[1],
        5 => flags(k),
        _ => 0xFF,
    }
}

// Every fourth entry is a field.
fn is_field(k: u64) -> bool
    ensures { result ≡ Good.good_field k }
{
    k % 4 == 3
}

// All have flags, which a field drops.
fn flags(k: u64) -> u8
    ensures { result ≡ Good.good_flags k }
{
    (k % 2 * 0x80 + k % 3 % 2 * 0x40 + 0x3F) as u8
}
