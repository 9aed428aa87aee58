// Puts what is said of a test, as the line of a refusal.
ghost use Rattle.text.specs.Lines.{line_text};
ghost use Rattle.text.specs.Room.{PutInRoom};
ghost use Rattle.text_words.specs.Words.{byte_words, pair_words, refused_line, size_words, test_words};

use basis::{ByteTest, PairTest, SizeTest, Test};
use text::{line, word};

pub fn refused(out: &mut [u8], at: usize, test: Test) -> usize
    ensures { PutInRoom at (line_text (refused_line test)) out.old result out.new }
{
    let named = word(out, at, b"refused: ");
    words(out, named, test)
}

fn words(out: &mut [u8], at: usize, test: Test) -> usize
    ensures { PutInRoom at (line_text (test_words test)) out.old result out.new }
{
    match test {
        Test::Size(size) => of_size(out, at, size),
        Test::Pair(pair) => of_pair(out, at, pair),
        Test::Byte(byte) => of_byte(out, at, byte),
    }
}

fn of_size(out: &mut [u8], at: usize, test: SizeTest) -> usize
    ensures { PutInRoom at (line_text (size_words test)) out.old result out.new }
{
    match test {
        SizeTest::CaptionRoom => line(out, at, b"the buffer for captions has fewer than 95 bytes"),
        SizeTest::PacketLeast => line(out, at, b"the packet has fewer than 11 bytes"),
        SizeTest::PacketSize => line(out, at, b"the packet has another size than its byte 2 says"),
        SizeTest::TimeWhole => line(out, at, b"the packet ends inside its time code"),
        SizeTest::CaptionsHead => line(
            out,
            at,
            b"the packet ends before the count of its captions",
        ),
        SizeTest::CaptionsWhole => line(out, at, b"the packet ends inside its captions"),
        SizeTest::ServicesHead => line(
            out,
            at,
            b"the packet ends before the count of its services",
        ),
        SizeTest::ServicesWhole => line(out, at, b"the packet ends inside its service list"),
        SizeTest::SectionHead => line(out, at, b"the service section has fewer than two bytes"),
        SizeTest::SectionSize => line(
            out,
            at,
            b"the service section has another size than its count says",
        ),
        SizeTest::ClosingHead => line(
            out,
            at,
            b"fewer than two bytes stand behind the packet's sections",
        ),
        SizeTest::FutureWhole => line(out, at, b"the packet ends inside a future section"),
        SizeTest::FutureNext => line(
            out,
            at,
            b"fewer than two bytes stand behind a future section",
        ),
        SizeTest::FooterWhole => line(out, at, b"the packet ends inside its footer"),
    }
}

fn of_pair(out: &mut [u8], at: usize, test: PairTest) -> usize
    ensures { PutInRoom at (line_text (pair_words test)) out.old result out.new }
{
    match test {
        PairTest::Magic => line(out, at, b"the packet does not begin with 96 69"),
        PairTest::FooterSequence => line(
            out,
            at,
            b"the sequence in the footer is not the one in the header",
        ),
    }
}

fn of_byte(out: &mut [u8], at: usize, test: ByteTest) -> usize
    ensures { PutInRoom at (line_text (byte_words test)) out.old result out.new }
{
    match test {
        ByteTest::Rate => line(out, at, b"the frame rate is none of the eight"),
        ByteTest::TimeId => line(out, at, b"the time code does not begin with 71"),
        ByteTest::Hours => line(out, at, b"the hours byte lacks a fixed bit"),
        ByteTest::Minutes => line(out, at, b"the minutes byte lacks its fixed bit"),
        ByteTest::Frames => line(
            out,
            at,
            b"the frames byte has a bit set that has to be clear",
        ),
        ByteTest::CaptionsId => line(out, at, b"the captions do not begin with 72"),
        ByteTest::CaptionsFixed => line(out, at, b"the caption count lacks a fixed bit"),
        ByteTest::ServicesId => line(out, at, b"the service list does not begin with 73"),
        ByteTest::SectionId => line(out, at, b"the service section does not begin with 73"),
        ByteTest::SectionFixed => line(out, at, b"the service count lacks its fixed bit"),
        ByteTest::HeaderFixed => line(
            out,
            at,
            b"the byte in front of a service lacks its first fixed bit",
        ),
        ByteTest::HeaderForm => line(
            out,
            at,
            b"the byte in front of a service lacks its second fixed bit",
        ),
        ByteTest::KindFixed => line(out, at, b"the number byte of a service lacks its fixed bit"),
        ByteTest::KindNumber => line(out, at, b"a digital service has the number 0"),
        ByteTest::KindField => line(
            out,
            at,
            b"the number byte of a caption field lacks a fixed bit",
        ),
        ByteTest::EntryFlags => line(out, at, b"the flag byte of a service lacks a fixed bit"),
        ByteTest::EntryEnd => line(out, at, b"the last byte of a service is not ff"),
        ByteTest::HeaderNumber => line(
            out,
            at,
            b"the byte in front of a service names another number than the service has",
        ),
        ByteTest::ServicesFlags => line(
            out,
            at,
            b"header and service list differ in start, change or complete",
        ),
        ByteTest::FutureId => line(
            out,
            at,
            b"a byte that has to begin a section or the footer begins neither",
        ),
        ByteTest::Checksum => line(
            out,
            at,
            b"the checksum byte is not the one that the packet's bytes give",
        ),
    }
}
