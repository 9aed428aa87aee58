// Rule 6, behind a packet's last test: its captions, handed out.
ghost use Rattle.std.specs.Prelude.{cond, true, [], ◌≡◌, ◌+◌, ◌≤◌, length};
ghost use Rattle.basis.specs.Bytes.{over};
ghost use Rattle.values.specs.Layout.{caption_room};
ghost use Rattle.read_captions.specs.Captions.{captions_size, handed_out};

use basis::put;
use values::Packet;

// Puts C0 + c, FF and the caption bytes of the section at a place at the start of the lent buffer; without a section,
// nothing. The room is asked for, so that no put refuses.
pub(crate) fn hand_out(packet: &[u8], present: bool, at: u8, captions: &mut [u8])
    requires at_in_bounds { present ≡ true → at + captions_size packet.now at ≤ length packet.now }
    requires caption_room_in_bounds { caption_room ≤ length captions.old }
    ensures { captions.new ≡ over 0 (cond present (handed_out packet.now at) []) captions.old }
{
    if !present {
        return;
    }
    let i = at as usize;
    let count = packet[i + 1] % 32;
    let end = i + (Packet::SECTION_HEAD_LEN + Packet::TRIPLET_LEN * count as usize);
    put(captions, 0, &[0xC0 + count, 0xFF]);
    put(
        captions,
        Packet::SECTION_HEAD_LEN,
        &packet[i + Packet::SECTION_HEAD_LEN..end],
    );
}
