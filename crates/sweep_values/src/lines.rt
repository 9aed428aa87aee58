// One line of the sweep each, put together in a lent buffer and written.
use crate::digest;
use std::io;
use text::{flag, hex, number, word};
use values::{Flags, Framerate};
use values_time::TimeCode;

pub fn rate(rt: &(impl Print + Eprint), out: &mut [u8], id: u8) -> io::Result<()> {
    let found = Framerate::from_id(id);
    let named = number(out, 0, b"rate ", id as u64);
    let shown = maybe_rate(out, named, found);
    streams::write_line(rt, out, shown)
}

fn maybe_rate(out: &mut [u8], at: usize, found: Option<Framerate>) -> usize {
    let Some(rate) = found else {
        return word(out, at, b" none");
    };
    let id = number(out, at, b" ", rate.id as u64);
    let numer = number(out, id, b"/", rate.numer as u64);
    number(out, numer, b"/", rate.denom as u64)
}

pub fn flags(rt: &(impl Print + Eprint), out: &mut [u8], byte: u8) -> io::Result<()> {
    let f = Flags::from(byte);
    let named = hex(out, 0, b"flags ", byte);
    let sections = three(out, named, f.time_code, f.cc_data, f.svc_info);
    let services = three(
        out,
        sections,
        f.svc_info_start,
        f.svc_info_change,
        f.svc_info_complete,
    );
    let active = flag(out, services, b" ", f.caption_service_active);
    streams::write_line(rt, out, active)
}

fn three(out: &mut [u8], at: usize, a: bool, b: bool, c: bool) -> usize {
    let first = flag(out, at, b" ", a);
    let second = flag(out, first, b" ", b);
    flag(out, second, b" ", c)
}

pub fn made(rt: &(impl Print + Eprint), out: &mut [u8], six: u64) -> io::Result<()> {
    let f = Flags {
        time_code: six / 32 % 2 == 1,
        cc_data: six / 16 % 2 == 1,
        svc_info: six / 8 % 2 == 1,
        svc_info_start: six / 4 % 2 == 1,
        svc_info_change: six / 2 % 2 == 1,
        svc_info_complete: six % 2 == 1,
        caption_service_active: true,
    };
    let named = number(out, 0, b"made ", six);
    let shown = hex(out, named, b" ", u8::from(f));
    streams::write_line(rt, out, shown)
}

// One byte of a time code that is otherwise zero.
pub fn time(rt: &(impl Print + Eprint), out: &mut [u8], place: usize, byte: u8) -> io::Result<()> {
    let mut bytes = [0xC0u8, 0x80, 0, 0];
    bytes[place % 4] = byte;
    let read = TimeCode::parse(bytes).ok();
    let named = number(out, 0, b"time ", place as u64);
    let changed = hex(out, named, b" ", byte);
    let shown = maybe_time(out, changed, read);
    streams::write_line(rt, out, shown)
}

fn maybe_time(out: &mut [u8], at: usize, read: Option<TimeCode>) -> usize {
    let Some(time) = read else {
        return word(out, at, b" none");
    };
    let frames = clock(out, at, time);
    let field = flag(out, frames, b":", time.field);
    flag(out, field, b":", time.drop_frame)
}

// Hours, minutes, seconds and frames.
fn clock(out: &mut [u8], at: usize, time: TimeCode) -> usize {
    let hours = number(out, at, b" ", time.hours as u64);
    let minutes = number(out, hours, b":", time.minutes as u64);
    let seconds = number(out, minutes, b":", time.seconds as u64);
    number(out, seconds, b":", time.frames as u64)
}

// A digest of all that is written for one hour.
pub fn write(rt: &(impl Print + Eprint), out: &mut [u8], hours: u64) -> io::Result<()> {
    let named = number(out, 0, b"write ", hours);
    let shown = number(out, named, b" ", digest::times(hours));
    streams::write_line(rt, out, shown)
}

// A digest of all sequences with one high byte.
pub fn sequence(rt: &(impl Print + Eprint), out: &mut [u8], high: u8) -> io::Result<()> {
    let named = hex(out, 0, b"sequence ", high);
    let shown = number(out, named, b" ", digest::sequences(high as u64));
    streams::write_line(rt, out, shown)
}
