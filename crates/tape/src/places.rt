// The operations A, B and C: a packet, a section and an entry, read for the answer and its place.
use crate::print::Output;
use crate::show;
use basis::{Answer, Refused};
use reader::CDPParser;
use report::fill;
use service_list::{ServiceEntry, ServiceInfo};

// The reader is a new one, and the tape's own stays as it is.
pub fn packet(packet: &[u8], lent: &mut [u8], out: &mut Output<impl Print + Eprint>) {
    fill(lent);
    let read = CDPParser::new().parse(packet, lent);
    placed(out, b"A ", read.answer, read.place);
}

pub fn section(bytes: &[u8], out: &mut Output<impl Print + Eprint>) {
    alone(out, b"B ", ServiceInfo::parse(bytes).err());
}

pub fn entry(bytes: [u8; 6], out: &mut Output<impl Print + Eprint>) {
    alone(out, b"C ", ServiceEntry::parse(bytes).err());
}

fn alone(out: &mut Output<impl Print + Eprint>, letter: &[u8], refused: Option<Refused>) {
    let place = Refused::place_of(refused);
    placed(out, letter, show::outcome(refused), place);
}

fn placed(out: &mut Output<impl Print + Eprint>, letter: &[u8], answer: Answer, place: usize) {
    out.word(letter);
    show::answer(out, answer);
    out.word(b" at ");
    out.decimal(place as u64);
}
