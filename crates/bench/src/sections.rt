// The packet's service list, written again and again as a section.
use crate::print;
use reader::CDPParser;
use service_list::ServiceInfo;
use std::io;

// The packet is read once.
pub fn turns(
    rt: &(impl Print + Eprint),
    packet: &[u8],
    turns: u64,
    captions: &mut [u8],
    out: &mut [u8],
) -> io::Result<()> {
    let read = CDPParser::new().parse(packet, captions);
    let service_info = read.parser.service_info;
    if !service_info.present {
        return streams::write(rt, b"no service list\n");
    }
    write(rt, service_info.service_info, turns, out)
}

// Each turn has the other value of one flag.
fn write(
    rt: &(impl Print + Eprint),
    first: ServiceInfo,
    turns: u64,
    out: &mut [u8],
) -> io::Result<()> {
    let mut list = first;
    let mut answers: u64 = 0;
    let mut length = 0;
    for turn in 0..turns {
        list = list.set_complete(turn % 2 == 1);
        let answer = list.write_into(out);
        answers = answers.wrapping_add(answer.number as u64);
        length = answer.first;
    }
    print::turns(rt, answers, length, b"section ", out)
}
