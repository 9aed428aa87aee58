// The checksum made right, by a sum that is not the reader's.
ghost use Rattle.std.specs.Prelude.{◌≡◌, ◌+◌, ◌%◌, ◌≤◌};
ghost use Rattle.values.specs.Checksum.{total};
ghost use Rattle.sweep_reader.specs.Mend as Mend;

// The sum that has to be 0 is that of all bytes but the last, and the checksum byte.
pub fn mend(packet: &mut [u8], behind: u8)
    ensures { packet.new ≡ Mend.packet_mended behind packet.old }
{
    let size = packet.len();
    let back = behind as usize + 1;
    // No packet is shorter.
    if size < back {
        return;
    }
    let checksum = size - back;
    let at = size - mender(behind);
    packet[at] = 0;
    let rest = sum(&packet[..size - 1]).wrapping_add(packet[checksum]);
    packet[at] = rest.wrapping_neg();
}

// How far from the end the byte stands that mends: the checksum byte, or where bytes follow it the first of these,
// since the checksum byte then counts twice and cannot mend an odd sum.
fn mender(behind: u8) -> usize
    ensures value { result ≡ Mend.mender behind }
    ensures bounds { (1 ≤ result) × (result ≤ behind + 1) }
{
    if behind == 0 { 1 } else { behind as usize }
}

// Not the reader's own: what mends a packet for it is not to come from it.
fn sum(bytes: &[u8]) -> u8
    ensures { result ≡ total bytes.now % 256 }
{
    bytes
        .iter()
        .fold(0, |sum: u8, byte| sum.wrapping_add(*byte))
}
