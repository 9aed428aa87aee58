// Rule 9: the checksum.
ghost use Rattle.std.specs.Prelude.{◌≡◌, ◌%◌};
ghost use Rattle.values.specs.Checksum.{total, negative};

// The byte that brings the sum of the bytes to 0 modulo 256. The complement plus 1 is the negative, in one byte.
pub fn checksum_byte(bytes: &[u8]) -> u8
    ensures { result ≡ negative (total bytes.now) }
{
    std::num::wrapping_add_u8(255 - sum(bytes), 1)
}

// The sum of the bytes, which wraps at 256.
fn sum(bytes: &[u8]) -> u8
    ensures { result ≡ total bytes.now % 256 }
{
    let mut sum: u8 = 0;
    for byte in bytes {
        sum = std::num::wrapping_add_u8(sum, *byte);
    }
    sum
}
