// The operation T: calls on a list that starts empty.
use crate::print::Output;
use crate::words::Word;
use crate::{lists, show, words};
use basis::Answer;
use service_list::{ServiceEntry, ServiceInfo, ServiceInfoAdded};

#[derive(Clone, Copy)]
enum Call {
    SetStart(bool),
    SetChange(bool),
    SetComplete(bool),
    Clear,
    Add(ServiceEntry),
}

// The whole line is looked at first, so that a malformed one prints nothing else.
pub fn calls(line: &[u8], out: &mut Output<impl Print + Eprint>) -> Option<()> {
    let first = words::operands(line)?;
    if !well_formed(line, first) {
        return None;
    }
    out.word(b"T");
    let list = make(line, first, out);
    out.word(b" len ");
    show::answer(out, list.byte_len());
    Some(())
}

// A line has fewer calls than bytes. No `while let`: it would want a measure, that each call ends past its start.
fn well_formed(line: &[u8], first: usize) -> bool {
    let mut at = first;
    for _ in 0..line.len() {
        let Some(found) = call_at(line, at) else {
            return false;
        };
        if words::ends(line, found.next) {
            return true;
        }
        let Some(next) = words::mark(line, found.next, b',') else {
            return false;
        };
        at = next;
    }
    false
}

// Makes the calls of a line that is well formed, in the same loop, and gives the list that they leave.
fn make(line: &[u8], first: usize, out: &mut Output<impl Print + Eprint>) -> ServiceInfo {
    let mut list = ServiceInfo::default();
    let mut at = first;
    for _ in 0..line.len() {
        let Some(found) = call_at(line, at) else {
            return list;
        };
        list = one(found.value, list, out);
        let Some(next) = words::mark(line, found.next, b',') else {
            return list;
        };
        at = next;
    }
    list
}

// Makes one call and prints its answer and the list.
fn one(call: Call, list: ServiceInfo, out: &mut Output<impl Print + Eprint>) -> ServiceInfo {
    let added = answered(call, list);
    out.word(b" ");
    show::answer(out, added.answer);
    out.word(b" ");
    show::list(out, added.list);
    out.word(b" |");
    added.list
}

// A call that has no answer of its own answers 0.
fn answered(call: Call, list: ServiceInfo) -> ServiceInfoAdded {
    match call {
        Call::SetStart(on) => without_answer(list.set_start(on)),
        Call::SetChange(on) => without_answer(list.set_change(on)),
        Call::SetComplete(on) => without_answer(list.set_complete(on)),
        Call::Clear => without_answer(list.clear_services()),
        Call::Add(entry) => list.add_service(entry),
    }
}

fn without_answer(list: ServiceInfo) -> ServiceInfoAdded {
    ServiceInfoAdded {
        answer: Answer::done(0),
        list,
    }
}

// A call as the tape spells it: a letter, with a flag where it sets one, or an entry.
fn call_at(line: &[u8], at: usize) -> Option<Word<Call>> {
    match line.get(at)? {
        b's' => words::flag(line, at + 1).map(|on| Word {
            value: Call::SetStart(on.value),
            next: on.next,
        }),
        b'c' => words::flag(line, at + 1).map(|on| Word {
            value: Call::SetChange(on.value),
            next: on.next,
        }),
        b'k' => words::flag(line, at + 1).map(|on| Word {
            value: Call::SetComplete(on.value),
            next: on.next,
        }),
        b'x' => Some(Word {
            value: Call::Clear,
            next: at + 1,
        }),
        _ => lists::entry(line, at).map(|entry| Word {
            value: Call::Add(entry.value),
            next: entry.next,
        }),
    }
}
