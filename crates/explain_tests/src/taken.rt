// The values that a byte may have, by the test that it fails.
ghost use Rattle.std.specs.Prelude.{cond, false, ◌≡◌, eqb};
ghost use Rattle.basis.specs.declared.test.ByteTest.TheVariants.{FutureId};
ghost use Rattle.service_entries.specs.Entries.{named_by};
ghost use Rattle.explain_tests.specs.Code as Code;
ghost use Rattle.explain_tests.specs.Tests as Tests;

use basis::ByteTest;
use values::{Framerate, Packet};

// Whether the test, and the others of the same byte, take a value. It is compared with what the packet says, if with
// anything.
pub fn takes(test: ByteTest, said: u8, value: u8) -> bool
    ensures { result ≡ Tests.takes test said value }
{
    match test {
        ByteTest::Rate => Framerate::from_id(value / 16 % 16).is_some(),
        ByteTest::TimeId => value == Packet::TIME_CODE_ID,
        ByteTest::Hours => value / 64 % 4 == 3,
        ByteTest::Minutes => value / 128 % 2 == 1,
        ByteTest::Frames => value / 64 % 2 == 0,
        ByteTest::CaptionsId => value == Packet::CC_DATA_ID,
        ByteTest::CaptionsFixed => value / 32 % 8 == 7,
        ByteTest::ServicesId => value == Packet::SVC_INFO_ID,
        ByteTest::SectionId => value == Packet::SVC_INFO_ID,
        ByteTest::SectionFixed => value / 128 % 2 == 1,
        ByteTest::HeaderFixed => header(value),
        ByteTest::HeaderForm => header(value),
        ByteTest::HeaderNumber => naming(value, said),
        ByteTest::KindFixed => kind(value),
        ByteTest::KindNumber => kind(value),
        ByteTest::KindField => kind(value),
        ByteTest::EntryFlags => value % 64 == 63,
        ByteTest::EntryEnd => value == 0xFF,
        ByteTest::ServicesFlags => value / 4 % 64 == said,
        ByteTest::FutureId => begins(value),
        ByteTest::Checksum => value == said,
    }
}

// An entry's header byte: 80, and with 40 also 20.
fn header(value: u8) -> bool
    ensures { result ≡ Code.header_takes value }
{
    if value / 128 % 2 != 1 {
        return false;
    }
    if value / 64 % 2 == 1 {
        value / 32 % 2 == 1
    } else {
        true
    }
}

// One that names this number, in either form.
fn naming(value: u8, number: u8) -> bool
    ensures { result ≡ cond (Code.header_takes value) (eqb (named_by value) number) false }
{
    if !header(value) {
        return false;
    }
    if value / 64 % 2 == 1 {
        value % 32 == number
    } else {
        value % 64 == number
    }
}

// An entry's byte 3: 40, and with 80 a number, without it 3E.
fn kind(value: u8) -> bool
    ensures { result ≡ Code.kind_takes value }
{
    if value / 64 % 2 != 1 {
        return false;
    }
    if value / 128 % 2 == 1 {
        value % 64 != 0
    } else {
        value / 2 % 32 == 31
    }
}

// What begins a future section, or the footer.
fn begins(value: u8) -> bool
    ensures { result ≡ Tests.asks FutureId 0 value }
{
    if value == Packet::CDP_FOOTER_ID {
        return true;
    }
    if value < 0x75 {
        return false;
    }
    value <= 0xEF
}
