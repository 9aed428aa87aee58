// The lines of what a reader shows, each part's in turn.
ghost use Rattle.std.specs.Prelude.{◌≡◌, ◌<◌, ◌≤◌, ◌%◌, length};
ghost use Rattle.service_entries.specs.Entries.{places};
ghost use Rattle.text.specs.Lines.{line_text, lines_text};
ghost use Rattle.text.specs.Room.{PutInRoom};
ghost use Rattle.text_dump.specs.Lines as Lines;

use crate::captions::captions;
use crate::list::services;
use reader::CDPParser;
use text::{flag, line, number, two_digits};
use values::Framerate;
use values_time::{MaybeTimeCode, TimeCode};

// What the reader shows of an accepted packet, and the captions that it handed out.
pub(crate) fn shown(out: &mut [u8], at: usize, parser: CDPParser, handed_out: &[u8]) -> usize
    requires listed { parser.service_info.service_info.count ≤ places }
    requires whole { 0 < length handed_out.now → length handed_out.now % 3 ≡ 2 }
    ensures { PutInRoom at (lines_text (Lines.shown_lines parser handed_out.now)) out.old result out.new }
{
    // An accepted packet has one.
    let framerate = parser.framerate.unwrap_or(Framerate::NONE);
    let time_code = parser.time_code;
    let service_info = parser.service_info;
    let rated = rate(out, at, framerate);
    let counted = sequence(out, rated, parser.sequence);
    let timed = time(out, counted, time_code);
    let captioned = captions(out, timed, handed_out);
    let listed = services(out, captioned, service_info);
    active(out, listed, parser.caption_active)
}

fn rate(out: &mut [u8], at: usize, shown: Framerate) -> usize
    ensures { PutInRoom at (line_text (Lines.rate_line shown)) out.old result out.new }
{
    let id = number(out, at, b"rate ", shown.id as u64);
    let numer = number(out, id, b" ", shown.numer as u64);
    let denom = number(out, numer, b"/", shown.denom as u64);
    line(out, denom, b"")
}

fn sequence(out: &mut [u8], at: usize, shown: u16) -> usize
    ensures { PutInRoom at (line_text (Lines.sequence_line shown)) out.old result out.new }
{
    let count = number(out, at, b"sequence ", shown as u64);
    line(out, count, b"")
}

fn active(out: &mut [u8], at: usize, shown: bool) -> usize
    ensures { PutInRoom at (line_text (Lines.active_line shown)) out.old result out.new }
{
    let on = flag(out, at, b"active ", shown);
    line(out, on, b"")
}

fn time(out: &mut [u8], at: usize, shown: MaybeTimeCode) -> usize
    ensures { PutInRoom at (line_text (Lines.time_line shown)) out.old result out.new }
{
    if !shown.present {
        return line(out, at, b"time none");
    }
    let time_code = shown.time_code;
    clock(out, at, time_code)
}

fn clock(out: &mut [u8], at: usize, shown: TimeCode) -> usize
    ensures { PutInRoom at (line_text (Lines.clock_line shown)) out.old result out.new }
{
    let told = four(out, at, shown);
    let field = flag(out, told, b" field ", shown.field);
    let drop = flag(out, field, b" drop ", shown.drop_frame);
    line(out, drop, b"")
}

fn four(out: &mut [u8], at: usize, shown: TimeCode) -> usize
    ensures { PutInRoom at (Lines.four_text shown) out.old result out.new }
{
    let hours = two_digits(out, at, b"time ", shown.hours);
    let minutes = two_digits(out, hours, b":", shown.minutes);
    let seconds = two_digits(out, minutes, b":", shown.seconds);
    two_digits(out, seconds, b":", shown.frames)
}
