// Rule 4: the sequence, high byte first.
ghost use Rattle.std.specs.Prelude.{◌≡◌};
ghost use Rattle.values.specs.Sequence.{sequence_of, sequence_bytes};

pub fn sequence_count(high: u8, low: u8) -> u16
    ensures { result ≡ sequence_of high low }
{
    (high as u16) * 256 + low as u16
}

// The two bytes, as header and footer have them.
pub fn sequence_bytes(sequence: u16) -> [u8; 2]
    ensures { result ≡ sequence_bytes sequence }
{
    [(sequence / 256) as u8, (sequence % 256) as u8]
}
