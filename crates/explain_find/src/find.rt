// The test that is left by the answer's number and its place. Each part begins where the one in front of it ends, so
// that a place tells its part, and a size the part that the packet ends in.
ghost use Rattle.std.specs.Prelude.{cond, ◌≡◌, ◌+◌, ◌≤◌, eqb, length};
ghost use Rattle.basis.specs.declared.test.PairTest.TheVariants.{Magic};
ghost use Rattle.basis.specs.declared.test.Test.TheVariants.{Byte, Pair};
ghost use Rattle.values.specs.Layout.{section_head_size};
ghost use Rattle.explain_find.specs.Code.{bits_test, closing_test, entry_test, id_test, size_test, test_from, time_test};

use crate::layout::{captions_at, closing_at, services_at};
use basis::{ByteTest, PairTest, SizeTest, Test, byte_at};
use values::Packet;

#[tactic(auto, unfolding(crate::specs::Code::test_from))]
pub fn test_of(packet: &[u8], number: u8, place: usize) -> Test
    ensures { result ≡ test_from packet.now number place }
{
    match number {
        1 => Test::Size(size_test(packet)),
        2 => id_or_magic(packet, place),
        3 => Test::Byte(ByteTest::Rate),
        4 => Test::Byte(bits_test(packet, place)),
        5 => Test::Byte(ByteTest::Checksum),
        6 => Test::Pair(PairTest::FooterSequence),
        7 => Test::Byte(ByteTest::HeaderNumber),
        8 => Test::Byte(ByteTest::KindNumber),
        _ => Test::Byte(ByteTest::ServicesFlags),
    }
}

// The part that the packet ends in.
#[tactic(auto, unfolding(crate::specs::Code::size_test))]
fn size_test(packet: &[u8]) -> SizeTest
    ensures { result ≡ size_test packet.now }
{
    let size = packet.len();
    if size < Packet::MIN_PACKET_LEN {
        return SizeTest::PacketLeast;
    }
    if packet[2] as usize != size {
        return SizeTest::PacketSize;
    }
    let captions = captions_at(packet);
    if size < captions {
        return SizeTest::TimeWhole;
    }
    let services = services_at(packet);
    if size < services {
        return if size < captions + Packet::SECTION_HEAD_LEN {
            SizeTest::CaptionsHead
        } else {
            SizeTest::CaptionsWhole
        };
    }
    let closing = closing_at(packet);
    if size < closing {
        return if size < services + Packet::SECTION_HEAD_LEN {
            SizeTest::ServicesHead
        } else {
            SizeTest::ServicesWhole
        };
    }
    if size < closing + Packet::SECTION_HEAD_LEN {
        return SizeTest::ClosingHead;
    }
    closing_test(packet, closing)
}

// The future section that the packet ends in, or its footer.
fn closing_test(packet: &[u8], from: usize) -> SizeTest
    requires { from + section_head_size ≤ length packet.now }
    ensures { result ≡ closing_test (length packet.now) packet.now from }
{
    let size = packet.len();
    let mut i = from;
    // No `for`, and the reader's walk once more: each section's own length says where the next one begins, and read_closing
    // gives no test (decision 110).
    while packet[i] != Packet::CDP_FOOTER_ID {
        let length = packet[i + 1] as usize;
        if size < i + 1 + length {
            return SizeTest::FutureWhole;
        }
        let next = i + Packet::SECTION_HEAD_LEN + length;
        if size < next + Packet::SECTION_HEAD_LEN {
            return SizeTest::FutureNext;
        }
        i = next;
    }
    SizeTest::FooterWhole
}

// The packet's first two bytes, or an id byte.
fn id_or_magic(packet: &[u8], place: usize) -> Test
    ensures { result ≡ cond (eqb place 0) (Pair Magic) (Byte (id_test packet.now place)) }
{
    if place == 0 {
        return Test::Pair(PairTest::Magic);
    }
    Test::Byte(id_test(packet, place))
}

// The part that an id byte begins.
#[tactic(auto, unfolding(crate::specs::Code::id_test))]
fn id_test(packet: &[u8], place: usize) -> ByteTest
    ensures { result ≡ id_test packet.now place }
{
    if place < captions_at(packet) {
        return ByteTest::TimeId;
    }
    if place < services_at(packet) {
        return ByteTest::CaptionsId;
    }
    if place < closing_at(packet) {
        return ByteTest::ServicesId;
    }
    ByteTest::FutureId
}

// The byte that has fixed bits.
#[tactic(auto, unfolding(crate::specs::Code::bits_test))]
fn bits_test(packet: &[u8], place: usize) -> ByteTest
    ensures { result ≡ bits_test packet.now place }
{
    if place < captions_at(packet) {
        return time_test(place);
    }
    let services = services_at(packet);
    if place < services {
        return ByteTest::CaptionsFixed;
    }
    if place < services + Packet::SECTION_HEAD_LEN {
        return ByteTest::SectionFixed;
    }
    entry_test(
        (place - services - Packet::SECTION_HEAD_LEN) % Packet::SECTION_ENTRY_LEN,
        byte_at(packet, place),
    )
}

#[tactic(auto, unfolding(crate::specs::Code::time_test))]
fn time_test(place: usize) -> ByteTest
    ensures { result ≡ time_test place }
{
    if place == Packet::HEADER_LEN + 1 {
        return ByteTest::Hours;
    }
    if place == Packet::HEADER_LEN + 2 {
        return ByteTest::Minutes;
    }
    ByteTest::Frames
}

// Of an entry with its header byte: the place in its seven bytes, and the byte there.
#[tactic(auto, unfolding(crate::specs::Code::entry_test))]
fn entry_test(place: usize, byte: u8) -> ByteTest
    ensures { result ≡ entry_test place byte }
{
    if place == 0 {
        return if byte / 128 % 2 == 1 {
            ByteTest::HeaderForm
        } else {
            ByteTest::HeaderFixed
        };
    }
    if place == 4 {
        return if byte / 64 % 2 == 1 {
            ByteTest::KindField
        } else {
            ByteTest::KindFixed
        };
    }
    if place == 5 {
        return ByteTest::EntryFlags;
    }
    ByteTest::EntryEnd
}
