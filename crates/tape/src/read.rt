// The operations S and E: a section and an entry, read from bytes. The words of B and C are the same, and Y has those of S.
use crate::print::Output;
use crate::{places, reasons, show, words};
use service_list::{ServiceEntry, ServiceInfo};

pub fn bytes(
    line: &[u8],
    letter: u8,
    given: &mut [u8],
    out: &mut Output<impl Print + Eprint>,
) -> Option<()> {
    let bytes = operand(line, given)?;
    match letter {
        b'Y' => reasons::packet(bytes, out),
        b'B' => places::section(bytes, out),
        _ => section(bytes, out),
    }
    Some(())
}

// The bytes of a line's one word.
fn operand<'a>(line: &[u8], given: &'a mut [u8]) -> Option<&'a [u8]> {
    let found = words::bytes(line, words::operands(line)?, given)?;
    if !words::ends(line, found.next) {
        return None;
    }
    given.get(..found.value)
}

fn section(bytes: &[u8], out: &mut Output<impl Print + Eprint>) {
    let read = ServiceInfo::parse(bytes);
    out.word(b"S ");
    show::answer(out, show::outcome(read.err()));
    out.word(b" svc ");
    show::list(out, ServiceInfo::shown(read));
}

pub fn entry(
    line: &[u8],
    letter: u8,
    given: &mut [u8],
    out: &mut Output<impl Print + Eprint>,
) -> Option<()> {
    let bytes = <[u8; 6]>::try_from(operand(line, given)?).ok()?;
    if letter == b'C' {
        places::entry(bytes, out);
    } else {
        entry_of(bytes, out);
    }
    Some(())
}

fn entry_of(bytes: [u8; 6], out: &mut Output<impl Print + Eprint>) {
    let read = ServiceEntry::parse(bytes);
    out.word(b"E ");
    show::answer(out, show::outcome(read.err()));
    out.word(b" entry ");
    show::entry(out, ServiceEntry::shown(read));
}
