// The operations P, F and G: a packet, read by the one reader of the tape, a flush of the reader, and the reader's mark.
// The words of A are those of P.
use crate::print::Output;
use crate::{lent, places, show, words};
use reader::CDPParser;
use report::fill;

pub fn read(
    line: &[u8],
    letter: u8,
    given: &mut [u8],
    lent: &mut [u8],
    out: &mut Output<impl Print + Eprint>,
    parser: &mut CDPParser,
) -> Option<()> {
    let room = lent::room(line)?;
    let found = words::bytes(line, words::mark(line, room.next, b' ')?, given)?;
    if !words::ends(line, found.next) {
        return None;
    }
    let packet = given.get(..found.value)?;
    let lent = lent.get_mut(..room.value as usize)?;
    if letter == b'A' {
        places::packet(packet, lent, out);
    } else {
        read_into(packet, lent, out, parser);
    }
    Some(())
}

fn read_into(
    packet: &[u8],
    lent: &mut [u8],
    out: &mut Output<impl Print + Eprint>,
    parser: &mut CDPParser,
) {
    fill(lent);
    let read = parser.parse(packet, lent);
    *parser = read.parser;
    out.word(b"P ");
    show::answer(out, read.answer);
    show::parser(out, *parser);
    lent::show(out, lent);
}

pub fn flush(
    line: &[u8],
    out: &mut Output<impl Print + Eprint>,
    parser: &mut CDPParser,
) -> Option<()> {
    if !words::ends(line, 1) {
        return None;
    }
    *parser = parser.flush();
    out.word(b"F");
    show::parser(out, *parser);
    Some(())
}

// Whether captioning is on air. The reader stays as it is.
pub fn active(
    line: &[u8],
    out: &mut Output<impl Print + Eprint>,
    parser: &CDPParser,
) -> Option<()> {
    if !words::ends(line, 1) {
        return None;
    }
    out.word(b"G active ");
    out.bit(parser.caption_active);
    Some(())
}
