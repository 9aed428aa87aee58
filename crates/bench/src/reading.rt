// The packet, read again and again by one reader.
use crate::print;
use reader::CDPParser;
use std::io;
use values::Packet;

// No turn reads the same packet as the one before.
pub fn turns(
    rt: &(impl Print + Eprint),
    packet: &mut [u8],
    turns: u64,
    captions: &mut [u8],
) -> io::Result<()> {
    let mut parser = CDPParser::new();
    let mut answers: u64 = 0;
    let mut length = 0;
    for _ in 0..turns {
        advance(packet);
        let read = parser.parse(packet, captions);
        parser = read.parser;
        answers = answers.wrapping_add(read.answer.number as u64);
        length = read.answer.first;
    }
    shown(rt, answers, length, parser, captions)
}

// Behind a line that cannot be written there are no others.
fn shown(
    rt: &(impl Print + Eprint),
    answers: u64,
    length: usize,
    parser: CDPParser,
    captions: &[u8],
) -> io::Result<()> {
    print::number(rt, b"answers ", answers)?;
    print::number(rt, b"length ", length as u64)?;
    print::number(rt, b"sequence ", parser.sequence as u64)?;
    print::number(
        rt,
        b"services ",
        parser.service_info.service_info.count as u64,
    )?;
    print::sum(rt, b"captions ", captions)
}

// The next sequence in header and footer; the checksum changes with it, so that a right one stays right and a wrong one
// wrong. The packet ends with its footer.
fn advance(packet: &mut [u8]) {
    let size = packet.len();
    if size < Packet::MIN_PACKET_LEN {
        return;
    }
    add(packet, 6, 1);
    add(packet, size - 2, 1);
    add(packet, size - 1, 254);
}

fn add(packet: &mut [u8], at: usize, n: u8) {
    if at < packet.len() {
        packet[at] = packet[at].wrapping_add(n);
    }
}
