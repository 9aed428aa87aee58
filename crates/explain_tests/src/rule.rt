// The rule that a test belongs to. What a section or an entry is refused for, in a packet, is rule 7.
ghost use Rattle.std.specs.Prelude.{◌≡◌};
ghost use Rattle.explain_tests.specs.Tests.{byte_row, pair_row, rule_of, size_row};

use basis::{ByteTest, PairTest, SizeTest, Test};

pub fn rule_of(test: Test) -> u8
    ensures { result ≡ rule_of test }
{
    match test {
        Test::Size(of_size) => size_rule(of_size),
        Test::Pair(of_pair) => pair_rule(of_pair),
        Test::Byte(of_byte) => byte_rule(of_byte),
    }
}

fn size_rule(test: SizeTest) -> u8
    ensures { result ≡ (size_row test).rule }
{
    match test {
        SizeTest::CaptionRoom => 1,
        SizeTest::PacketLeast => 2,
        SizeTest::PacketSize => 2,
        SizeTest::TimeWhole => 5,
        SizeTest::CaptionsHead => 6,
        SizeTest::CaptionsWhole => 6,
        SizeTest::ServicesHead => 7,
        SizeTest::ServicesWhole => 7,
        SizeTest::SectionHead => 7,
        SizeTest::SectionSize => 7,
        SizeTest::ClosingHead => 8,
        SizeTest::FutureWhole => 8,
        SizeTest::FutureNext => 8,
        SizeTest::FooterWhole => 9,
    }
}

fn pair_rule(test: PairTest) -> u8
    ensures { result ≡ (pair_row test).rule }
{
    match test {
        PairTest::Magic => 2,
        PairTest::FooterSequence => 9,
    }
}

fn byte_rule(test: ByteTest) -> u8
    ensures { result ≡ (byte_row test).rule }
{
    match test {
        ByteTest::Rate => 3,
        ByteTest::TimeId => 5,
        ByteTest::Hours => 5,
        ByteTest::Minutes => 5,
        ByteTest::Frames => 5,
        ByteTest::CaptionsId => 6,
        ByteTest::CaptionsFixed => 6,
        ByteTest::ServicesId => 7,
        ByteTest::SectionId => 7,
        ByteTest::SectionFixed => 7,
        ByteTest::HeaderFixed => 7,
        ByteTest::HeaderForm => 7,
        ByteTest::KindFixed => 7,
        ByteTest::KindNumber => 7,
        ByteTest::KindField => 7,
        ByteTest::EntryFlags => 7,
        ByteTest::EntryEnd => 7,
        ByteTest::HeaderNumber => 7,
        ByteTest::ServicesFlags => 7,
        ByteTest::FutureId => 8,
        ByteTest::Checksum => 9,
    }
}
