// The service list: its count and flags, then a line for each entry.
ghost use Rattle.std.specs.Prelude.{cond, ◌≡◌, ◌≤◌, length};
ghost use Rattle.basis.specs.Made.{made};
ghost use Rattle.service_entries.specs.Entries.{places};
ghost use Rattle.text.specs.Lines.{line_text, lines_text};
ghost use Rattle.text.specs.Room.{PutInRoom};
ghost use Rattle.text_dump.specs.Lines as Lines;

use service_list::{
    DigitalServiceEntry, FieldOrService, MaybeServiceInfo, ServiceEntry, ServiceInfo,
};
use text::{flag, hex, line, number};

pub(crate) fn services(out: &mut [u8], at: usize, shown: MaybeServiceInfo) -> usize
    requires { shown.service_info.count ≤ places }
    ensures { PutInRoom at (lines_text (Lines.service_lines shown)) out.old result out.new }
{
    if !shown.present {
        return line(out, at, b"services none");
    }
    let list = shown.service_info;
    let headed = head(out, at, list);
    entries(out, headed, &list.services[..list.count])
}

fn head(out: &mut [u8], at: usize, shown: ServiceInfo) -> usize
    ensures { PutInRoom at (line_text (Lines.list_line shown)) out.old result out.new }
{
    let count = number(out, at, b"services ", shown.count as u64);
    let start = flag(out, count, b" start ", shown.start);
    let change = flag(out, start, b" change ", shown.change);
    let complete = flag(out, change, b" complete ", shown.complete);
    line(out, complete, b"")
}

fn entries(out: &mut [u8], from: usize, listed: &[ServiceEntry]) -> usize
    ensures { PutInRoom from (lines_text (made (Lines.place_line listed.now) (length listed.now))) out.old result out.new }
{
    let mut at = from;
    for shown in listed {
        at = entry(out, at, *shown);
    }
    at
}

fn entry(out: &mut [u8], at: usize, shown: ServiceEntry) -> usize
    ensures { PutInRoom at (line_text (Lines.entry_line shown)) out.old result out.new }
{
    let language = shown.language;
    let service = shown.service;
    match service {
        FieldOrService::Field(first) => field(out, at, first, language),
        FieldOrService::Service(named) => digital(out, at, named, language),
    }
}

fn field(out: &mut [u8], at: usize, first: bool, language: [u8; 3]) -> usize
    ensures { PutInRoom at (line_text (Lines.field_line first language)) out.old result out.new }
{
    let named = number(out, at, b"field ", field_number(first));
    let spoken = language_bytes(out, named, language);
    line(out, spoken, b"")
}

fn field_number(first: bool) -> u64
    ensures { result ≡ cond first 1 2 }
{
    if first { 1 } else { 2 }
}

fn digital(out: &mut [u8], at: usize, named: DigitalServiceEntry, language: [u8; 3]) -> usize
    ensures { PutInRoom at (line_text (Lines.digital_line named language)) out.old result out.new }
{
    let numbered = number(out, at, b"digital ", named.service as u64);
    let spoken = language_bytes(out, numbered, language);
    let easy = flag(out, spoken, b" easy ", named.easy_reader);
    let wide = flag(out, easy, b" wide ", named.wide_aspect_ratio);
    line(out, wide, b"")
}

fn language_bytes(out: &mut [u8], at: usize, bytes: [u8; 3]) -> usize
    ensures { PutInRoom at (Lines.language_text bytes) out.old result out.new }
{
    let first = hex(out, at, b" ", bytes[0]);
    let second = hex(out, first, b"", bytes[1]);
    hex(out, second, b"", bytes[2])
}
