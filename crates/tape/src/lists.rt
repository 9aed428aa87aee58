// Entries and lists as a tape spells them.
ghost use Rattle.std.specs.Prelude.{[], ◌≡◌, ◌<◌};
ghost use Rattle.tape.specs.Lists as Lists;

use crate::words::{Word, byte, flag, mark, small};
use service_entries::fillers;
use service_list::{DigitalServiceEntry, FieldOrService, ServiceEntry, ServiceInfo};

#[tactic(auto, unfolding(crate::specs::Lists::entry_at))]
pub fn entry(line: &[u8], at: usize) -> Option<Word<ServiceEntry>>
    ensures { result ≡ Lists.entry_at line.now at }
{
    match mark(line, at, b'd') {
        Some(behind) => digital(line, behind),
        None => field(line, mark(line, at, b'f')?),
    }
}

#[tactic(auto, unfolding(crate::specs::Lists::digital_at))]
fn digital(line: &[u8], at: usize) -> Option<Word<ServiceEntry>>
    ensures { result ≡ Lists.digital_at line.now at }
{
    let number = small(line, mark(line, at, b':')?)?;
    let easy = flag(line, mark(line, number.next, b':')?)?;
    let wide = flag(line, mark(line, easy.next, b':')?)?;
    let service = DigitalServiceEntry::new(number.value, easy.value, wide.value);
    in_language(line, wide.next, FieldOrService::Service(service))
}

#[tactic(auto, unfolding(crate::specs::Lists::field_at))]
fn field(line: &[u8], at: usize) -> Option<Word<ServiceEntry>>
    ensures { result ≡ Lists.field_at line.now at }
{
    let which = mark(line, at, b':')?;
    match mark(line, which, b'1') {
        Some(first) => in_language(line, first, FieldOrService::Field(true)),
        None => in_language(line, mark(line, which, b'2')?, FieldOrService::Field(false)),
    }
}

// The language is an entry's last part.
#[tactic(auto, unfolding(crate::specs::Lists::in_language))]
fn in_language(line: &[u8], at: usize, service: FieldOrService) -> Option<Word<ServiceEntry>>
    ensures { result ≡ Lists.in_language line.now at service }
{
    let first = byte(line, mark(line, at, b':')?)?;
    let second = byte(line, first.next)?;
    let third = byte(line, second.next)?;
    Some(Word {
        value: ServiceEntry::new([first.value, second.value, third.value], service),
        next: third.next,
    })
}

#[tactic(auto, unfolding(crate::specs::Lists::list_at))]
pub fn list(line: &[u8], at: usize) -> Option<Word<ServiceInfo>>
    ensures { result ≡ Lists.list_at line.now at }
{
    let start = flag(line, at)?;
    let change = flag(line, mark(line, start.next, b',')?)?;
    let complete = flag(line, mark(line, change.next, b',')?)?;
    entries(
        line,
        complete.next,
        start.value,
        change.value,
        complete.value,
    )
}

// A line has fewer entries than bytes. No `while let`: it would want a measure, that each entry ends past its start.
fn entries(
    line: &[u8],
    from: usize,
    start: bool,
    change: bool,
    complete: bool,
) -> Option<Word<ServiceInfo>>
    ensures { result ≡ Lists.entries_at line.now from start change complete }
{
    let mut list = flagged(start, change, complete);
    let mut at = from;
    for _ in 0..line.len() {
        let Some(behind) = mark(line, at, b';') else {
            return Some(Word {
                value: list,
                next: at,
            });
        };
        let word = entry(line, behind)?;
        list = counted(list, word.value);
        at = word.next;
    }
    Some(Word {
        value: list,
        next: at,
    })
}

// No entry as yet.
#[tactic(auto, unfolding(crate::specs::Lists::list_counting, service_entries::specs::Entries::filled))]
fn flagged(start: bool, change: bool, complete: bool) -> ServiceInfo
    ensures { result ≡ Lists.list_counting start change complete [] }
{
    let services = fillers();
    ServiceInfo {
        start,
        change,
        complete,
        services,
        count: 0,
    }
}

// Behind the fifteenth an entry is counted and has no place.
#[tactic(auto, unfolding(crate::specs::Lists::with_one_more))]
fn counted(mut list: ServiceInfo, entry: ServiceEntry) -> ServiceInfo
    requires { list.count < usize.MAX }
    ensures { result ≡ Lists.with_one_more list entry }
{
    if list.count < ServiceInfo::PLACES {
        list.services[list.count] = entry;
    }
    list.count += 1;
    list
}
