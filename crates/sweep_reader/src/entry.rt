// The seven bytes of a service in a packet. Every third is a field.
ghost use Rattle.std.specs.Prelude.{◌≡◌};
ghost use Rattle.sweep_reader.specs.Make as Make;

use report::named;

pub fn bytes(packet: u8, k: u8) -> [u8; 7]
    ensures { result ≡ Make.entry_made packet k }
{
    let names = named(is_field(k), (k / 3) as u64, k as u64);
    [
        names[0],
        0x61 + k % 16,
        0x61 + packet % 16,
        0x7A,
        names[1],
        // All have flags, which a field drops.
        k % 4 * 0x40 + 0x3F,
        0xFF,
    ]
}

fn is_field(k: u8) -> bool
    ensures { result ≡ Make.field_made k }
{
    k % 3 == 2
}
