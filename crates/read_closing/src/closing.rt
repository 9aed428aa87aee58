// Rules 8 and 9: what stands behind the sections.
ghost use Rattle.std.specs.Prelude.{◌≡◌, ◌+◌, ◌≤◌, length};
ghost use Rattle.values.specs.Layout.{section_head_size};
ghost use Rattle.read_closing.specs.Code.{closing_read, footer_read};

use basis::{Refusal, Refused};
use values::{Packet, checksum_byte, sequence_count};

// Goes over the future sections from a place on, and tests the footer behind them. Places are the packet's. This and
// `test_footer` are built into the packet's reader, since every accepted packet comes here: as calls they took a tenth of
// a short packet's work.
#[inline(always)]
pub fn test_closing(packet: &[u8], sequence: u16, at: u8) -> Result<(), Refused>
    ensures { result ≡ closing_read packet.now sequence at }
{
    let size = packet.len();
    let mut i = at as usize;
    if size < i + Packet::SECTION_HEAD_LEN {
        return Err(Refused::at(
            Refusal::LengthMismatch(i + Packet::SECTION_HEAD_LEN, size),
            size,
        ));
    }
    // No `for`: each section's own length says where the next one begins.
    while packet[i] != Packet::CDP_FOOTER_ID {
        if packet[i] < 0x75 {
            return Err(Refused::at(Refusal::WrongMagic, i));
        }
        if 0xEF < packet[i] {
            return Err(Refused::at(Refusal::WrongMagic, i));
        }
        let length = packet[i + 1] as usize;
        // The length is counted from behind the id byte here, as the Rust does.
        if size < i + 1 + length {
            return Err(Refused::at(Refusal::LengthMismatch(i + 1 + length, size), size));
        }
        let next = i + Packet::SECTION_HEAD_LEN + length;
        if size < next + Packet::SECTION_HEAD_LEN {
            return Err(Refused::at(
                Refusal::LengthMismatch(next + Packet::SECTION_HEAD_LEN, size),
                size,
            ));
        }
        i = next;
    }
    test_footer(packet, sequence, i)
}

// Tests the footer at a place. More bytes may follow it.
#[inline(always)]
fn test_footer(packet: &[u8], sequence: u16, i: usize) -> Result<(), Refused>
    requires { i + section_head_size ≤ length packet.now }
    ensures { result ≡ footer_read packet.now sequence i }
{
    let size = packet.len();
    if size < i + Packet::FOOTER_LEN {
        return Err(Refused::at(Refusal::LengthMismatch(i + Packet::FOOTER_LEN, size), size));
    }
    if sequence_count(packet[i + 1], packet[i + 2]) != sequence {
        return Err(Refused::at(Refusal::SequenceCountMismatch, i + 1));
    }
    if packet[i + 3] != checksum_byte(&packet[..size - 1]) {
        return Err(Refused::at(Refusal::ChecksumFailed, i + 3));
    }
    Ok(())
}
