// Makes one call again and again, on one reader, one writer or one service list, and prints what came of it. Two runs
// that differ only in the number of turns give the cost of one; bench/run takes it. Standard input is R to read, W to
// write a packet or S to write a section, the number of turns in four bytes, high byte first, and a packet.
#![tactic(auto)]

mod print;
mod reading;
mod sections;
mod writing;

use reader::CDPParser;
use std::io;
use values::Packet;

// What stands in front of the packet.
const FRONT: usize = 5;

fn main(rt: HostRuntime) {
    let mut input = [0u8; FRONT + 255];
    let mut captions = [0u8; CDPParser::CAPTION_ROOM];
    let mut out = [0u8; 255];
    // What failed has been said.
    let _ = run(&rt, &mut input, &mut captions, &mut out);
}

// Of an input that cannot be read nothing is run.
fn run(
    rt: &(impl Input + Print + Eprint),
    input: &mut [u8],
    captions: &mut [u8],
    out: &mut [u8],
) -> io::Result<()> {
    let count = streams::read_all(rt, input)?;
    if count < FRONT + Packet::MIN_PACKET_LEN {
        return streams::write(rt, b"input too short\n");
    }
    let turns = number(input[1], input[2], input[3], input[4]);
    if input[0] == b'W' {
        writing::turns(rt, &input[FRONT..count], turns, captions, out)
    } else if input[0] == b'S' {
        sections::turns(rt, &input[FRONT..count], turns, captions, out)
    } else {
        reading::turns(rt, &mut input[FRONT..count], turns, captions)
    }
}

fn number(first: u8, second: u8, third: u8, fourth: u8) -> u64 {
    ((first as u64 * 256 + second as u64) * 256 + third as u64) * 256 + fourth as u64
}
