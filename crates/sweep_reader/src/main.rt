// Sweeps the packet reader: every value of every byte of ten good packets, checksum mended and not. The file stdout
// beside src/ is what the oracle prints for the same sweep.
#![tactic(auto)]

mod bytes;
mod change;
mod entry;
mod lines;
mod make;
mod mend;
mod read;
mod recipes;
mod shown;

use crate::change::{Change, values};
use crate::recipes::Recipe;
use reader::CDPParser;
use std::io;

// The reader that reads each packet, and the buffers: a packet's, the captions' with the least room that a reader takes,
// and a line's.
#[derive(Drop)]
struct Sweep {
    held: CDPParser,
    room: [u8; 256],
    captions: [u8; 95],
    line: [u8; 64],
}

// All buffers are made here, once, and lent from here on.
fn main(rt: HostRuntime) {
    let mut sweep = Sweep::new();
    // What failed has been said.
    let _ = sweep.packets(&rt);
}

impl Sweep {
    // Packet 0 is read first, and each other one by a reader that holds what it left, so that what a refusal keeps and
    // what it clears shows.
    fn new() -> Self {
        let mut room = [0u8; 256];
        let mut captions = [0u8; 95];
        let size = make::packet(&mut room, Recipe::new(0));
        let first = CDPParser::new().parse(&room[..size], &mut captions);
        Self {
            held: first.parser,
            room,
            captions,
            line: [0u8; 64],
        }
    }

    // Behind a line that cannot be written there are no others.
    fn packets(&mut self, rt: &(impl Print + Eprint)) -> io::Result<()> {
        for number in 1..11 {
            self.places(rt, Recipe::new(number))?;
        }
        Ok(())
    }

    // A line for each place of a packet, mended and not.
    fn places(&mut self, rt: &(impl Print + Eprint), recipe: Recipe) -> io::Result<()> {
        let size = make::packet(&mut self.room, recipe);
        for place in 0..size {
            for mended in [false, true] {
                self.line(rt, recipe, place, mended)?;
            }
        }
        Ok(())
    }

    // The packet is good again before each line.
    fn line(
        &mut self,
        rt: &(impl Print + Eprint),
        recipe: Recipe,
        place: usize,
        mended: bool,
    ) -> io::Result<()> {
        let Self {
            held,
            room,
            captions,
            line,
        } = self;
        let size = make::packet(room, recipe);
        let change = Change {
            place,
            mended,
            behind: recipe.behind,
        };
        let tally = values(*held, &mut room[..size], change, captions);
        lines::tally(rt, line, recipe.number, change, tally)
    }
}
