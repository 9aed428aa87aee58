// A digest for each line.
ghost use Rattle.std.specs.Prelude.{◌≡◌};
ghost use Rattle.sweep_services.specs.Sweep as Sweep;

use crate::{good, read};

// Every byte 4 and byte 5 of an entry with this byte 3.
pub fn entries(kind: u64) -> u64
    ensures { result ≡ Sweep.entries_digest kind }
{
    (0..65536).fold(0, |digest, last_two| read::entry(digest, kind, last_two))
}

// Every byte 3 of an entry behind this header byte.
pub fn headers(header: u64) -> u64
    ensures { result ≡ Sweep.headers_digest header }
{
    (0..256).fold(0, |digest, kind| read::one(digest, header, kind))
}

// Every value of one byte of a good section.
pub fn place(count: u64, place: u64) -> u64
    ensures { result ≡ Sweep.place_digest count place }
{
    let size = good::size(count);
    (0..256).fold(0, |digest, byte| {
        read::changed(digest, count, size, place, byte)
    })
}

// Every size of the good section of this count, up to eight zeros behind it.
pub fn sizes(count: u64) -> u64
    ensures { result ≡ Sweep.sizes_digest count }
{
    let sizes = 0..good::size(count) + 9;
    sizes.fold(
        0,
        |digest, size| read::changed(digest, count, size, 0, 0x73),
    )
}

// One byte 1 with as many good entries as it counts.
pub fn second_byte(byte: u64) -> u64
    ensures { result ≡ Sweep.second_byte_digest byte }
{
    let size = good::size(byte);
    read::changed(0, byte, size, 1, byte)
}
