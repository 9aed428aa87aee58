// Why a packet is refused.
ghost use Rattle.std.specs.Prelude.{◌≡◌, ◌≤◌, length};
ghost use Rattle.read_closing.specs.Closing.{checksum_of};
ghost use Rattle.explain_tests.specs.Tests.{byte_row, flags_wanted, number_wanted};
ghost use Rattle.explain.specs.Why.{failed_pair, reason_for, why_of};

use basis::{Answer, ByteTest, PairTest, SizeTest, Test, byte_at};
use explain_find::{services_at, test_of};
use read_packet::Checked;
use values::checksum_byte;

// A test of a size, and the size that it asks for.
#[derive(Clone, Copy)]
pub struct FailedSize {
    pub test: SizeTest,
    pub bytes: usize,
}

// A test of two bytes, and the two that it asks for.
#[derive(Clone, Copy)]
pub struct FailedPair {
    pub test: PairTest,
    pub first: u8,
    pub second: u8,
}

// A test of one byte, and what the packet says that it is compared with: 0 where it is compared with nothing.
#[derive(Clone, Copy)]
pub struct FailedByte {
    pub test: ByteTest,
    pub said: u8,
}

// The test that a packet fails first.
#[derive(Clone, Copy)]
pub enum Reason {
    Accepted,
    OfSize(FailedSize),
    OfPair(FailedPair),
    OfByte(FailedByte),
}

// The reader's answer and place, and the reason. No Result: an accepted packet has an answer and a place to tell too.
#[derive(Clone, Copy)]
pub struct Why {
    pub answer: Answer,
    pub place: usize,
    pub reason: Reason,
}

impl Why {
    pub fn of(packet: &[u8]) -> Self
        ensures { result ≡ why_of packet.now }
    {
        match Checked::parse(packet) {
            Ok(checked) => Self {
                answer: Answer::done(checked.captions),
                place: 0,
                reason: Reason::Accepted,
            },
            Err(refused) => {
                let answer = Answer::from(refused.refusal);
                let test = test_of(packet, answer.number, refused.place);
                Self {
                    answer,
                    place: refused.place,
                    reason: reason_for(packet, test, refused.place, answer.first),
                }
            }
        }
    }
}

// What a test at a place takes; of a size, the one that the answer has.
fn reason_for(packet: &[u8], test: Test, place: usize, size: usize) -> Reason
    requires { place ≤ length packet.now }
    ensures { result ≡ reason_for packet.now test place size }
{
    match test {
        Test::Size(of_size) => Reason::OfSize(FailedSize {
            test: of_size,
            bytes: size,
        }),
        Test::Pair(of_pair) => Reason::OfPair(failed_pair(packet, of_pair)),
        Test::Byte(of_byte) => Reason::OfByte(FailedByte {
            test: of_byte,
            said: said(packet, of_byte, place),
        }),
    }
}

// 96 69, or the header's sequence.
fn failed_pair(packet: &[u8], test: PairTest) -> FailedPair
    ensures { result ≡ failed_pair packet.now test }
{
    match test {
        PairTest::Magic => FailedPair {
            test,
            first: 0x96,
            second: 0x69,
        },
        PairTest::FooterSequence => FailedPair {
            test,
            first: byte_at(packet, 5),
            second: byte_at(packet, 6),
        },
    }
}

// What the packet says that the byte at a place is compared with.
fn said(packet: &[u8], test: ByteTest, place: usize) -> u8
    requires { place ≤ length packet.now }
    ensures { result ≡ (byte_row test).says packet.now place }
{
    match test {
        ByteTest::Rate => 0,
        ByteTest::TimeId => 0,
        ByteTest::Hours => 0,
        ByteTest::Minutes => 0,
        ByteTest::Frames => 0,
        ByteTest::CaptionsId => 0,
        ByteTest::CaptionsFixed => 0,
        ByteTest::ServicesId => 0,
        ByteTest::SectionId => 0,
        ByteTest::SectionFixed => 0,
        ByteTest::HeaderFixed => 0,
        ByteTest::HeaderForm => 0,
        ByteTest::KindFixed => 0,
        ByteTest::KindNumber => 0,
        ByteTest::KindField => 0,
        ByteTest::EntryFlags => 0,
        ByteTest::EntryEnd => 0,
        ByteTest::HeaderNumber => number_wanted(packet, place),
        ByteTest::ServicesFlags => flags_wanted(packet),
        ByteTest::FutureId => 0,
        ByteTest::Checksum => checksum_wanted(packet),
    }
}

// The number of the entry behind a header byte, 0 for a field.
fn number_wanted(packet: &[u8], place: usize) -> u8
    requires { place ≤ length packet.now }
    ensures { result ≡ number_wanted packet.now place }
{
    let kind = byte_at(packet, place + 4);
    if kind / 128 % 2 == 1 { kind % 64 } else { 0 }
}

// The six upper bits of byte 4: those that tell of sections as they are, and the section's start, change and complete.
fn flags_wanted(packet: &[u8]) -> u8
    ensures { result ≡ flags_wanted packet.now }
{
    byte_at(packet, 4) / 32 % 8 * 8 + byte_at(packet, services_at(packet) + 1) / 16 % 8
}

// The byte that rule 9 computes.
fn checksum_wanted(packet: &[u8]) -> u8
    ensures { result ≡ checksum_of packet.now }
{
    let size = packet.len();
    if size == 0 {
        return checksum_byte(packet);
    }
    checksum_byte(&packet[..size - 1])
}
