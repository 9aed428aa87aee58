// What the packet has, written again and again by one writer.
use crate::print;
use reader::CDPParser;
use std::io;
use values::Framerate;
use writer::CDPWriter;

// The packet is read once. Its captions stand behind the two bytes that a reader puts in front of them.
pub fn turns(
    rt: &(impl Print + Eprint),
    packet: &[u8],
    turns: u64,
    captions: &mut [u8],
    out: &mut [u8],
) -> io::Result<()> {
    let read = CDPParser::new().parse(packet, captions);
    let length = read.answer.first;
    let parser = read.parser;
    if length < 2 {
        return streams::write(rt, b"no captions\n");
    }
    if captions.len() < length {
        return Ok(());
    }
    // A refused packet leaves none, and zeros are then what is to be written.
    let framerate = parser.framerate.unwrap_or(Framerate::NONE);
    write(
        rt,
        holding(parser),
        framerate,
        turns,
        &captions[2..length],
        out,
    )
}

fn holding(parser: CDPParser) -> CDPWriter {
    let time_code = parser.time_code;
    let service_info = parser.service_info;
    let timed = CDPWriter::new().set_time_code(time_code);
    let set = timed.set_service_info(service_info);
    set.writer
}

// Each turn has the next sequence.
fn write(
    rt: &(impl Print + Eprint),
    first: CDPWriter,
    framerate: Framerate,
    turns: u64,
    captions: &[u8],
    out: &mut [u8],
) -> io::Result<()> {
    let mut writer = first;
    let mut answers: u64 = 0;
    let mut length = 0;
    for turn in 0..turns {
        writer = writer.set_sequence_count((turn % 65536) as u16);
        let answer = writer.write(framerate, captions, out);
        answers = answers.wrapping_add(answer.number as u64);
        length = answer.first;
    }
    print::turns(rt, answers, length, b"packet ", out)
}
