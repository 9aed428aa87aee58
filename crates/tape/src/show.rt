// Answers, entries, lists and the reader as a transcript spells them.
ghost use Rattle.std.specs.Prelude.{◌≡◌};
ghost use Rattle.tape.specs.Outcome.{outcome_answer};

use crate::print::Output;
use basis::{Answer, Refused};
use reader::CDPParser;
use service_list::{
    DigitalServiceEntry, FieldOrService, MaybeServiceInfo, ServiceEntry, ServiceInfo,
};
use values::Framerate;
use values_time::{MaybeTimeCode, TimeCode};

pub fn answer(out: &mut Output<impl Print + Eprint>, shown: Answer) {
    out.decimal(shown.number as u64);
    out.byte(b' ');
    out.decimal(shown.first as u64);
    out.byte(b' ');
    out.decimal(shown.second as u64);
}

// The answer of a reader that has no length to give: done, or its refusal.
pub fn outcome(refused: Option<Refused>) -> Answer
    ensures { result ≡ outcome_answer refused }
{
    match refused {
        Some(refused) => Answer::from(refused.refusal),
        None => Answer::done(0),
    }
}

pub fn entry(out: &mut Output<impl Print + Eprint>, shown: ServiceEntry) {
    match shown.service {
        FieldOrService::Field(first) => out.word(if first { b"f:1:" } else { b"f:2:" }),
        FieldOrService::Service(service) => digital(out, service),
    }
    out.hex(&shown.language);
}

fn digital(out: &mut Output<impl Print + Eprint>, shown: DigitalServiceEntry) {
    out.word(b"d:");
    out.decimal(shown.service as u64);
    flag(out, shown.easy_reader);
    flag(out, shown.wide_aspect_ratio);
    out.byte(b':');
}

fn flag(out: &mut Output<impl Print + Eprint>, on: bool) {
    out.byte(b':');
    out.bit(on);
}

pub fn list(out: &mut Output<impl Print + Eprint>, shown: ServiceInfo) {
    out.bit(shown.start);
    out.byte(b',');
    out.bit(shown.change);
    out.byte(b',');
    out.bit(shown.complete);
    for shown in shown.services.iter().take(shown.count) {
        out.byte(b';');
        entry(out, *shown);
    }
}

// Behind the letter of a flush, or the answer of a packet.
pub fn parser(out: &mut Output<impl Print + Eprint>, shown: CDPParser) {
    maybe_rate(out, shown.framerate);
    out.word(b" seq ");
    out.decimal(shown.sequence as u64);
    maybe_time(out, shown.time_code);
    maybe_list(out, shown.service_info);
}

fn maybe_rate(out: &mut Output<impl Print + Eprint>, held: Option<Framerate>) {
    out.word(b" rate ");
    match held {
        Some(framerate) => rate(out, framerate),
        None => out.word(b"none"),
    }
}

fn maybe_time(out: &mut Output<impl Print + Eprint>, held: MaybeTimeCode) {
    out.word(b" time ");
    if held.present {
        time(out, held.time_code);
    } else {
        out.word(b"none");
    }
}

fn maybe_list(out: &mut Output<impl Print + Eprint>, held: MaybeServiceInfo) {
    out.word(b" svc ");
    if held.present {
        list(out, held.service_info);
    } else {
        out.word(b"none");
    }
}

fn rate(out: &mut Output<impl Print + Eprint>, shown: Framerate) {
    out.decimal(shown.id as u64);
    out.byte(b'/');
    out.decimal(shown.numer as u64);
    out.byte(b'/');
    out.decimal(shown.denom as u64);
}

fn time(out: &mut Output<impl Print + Eprint>, shown: TimeCode) {
    out.decimal(shown.hours as u64);
    for part in [shown.minutes, shown.seconds, shown.frames] {
        out.byte(b':');
        out.decimal(part as u64);
    }
    flag(out, shown.field);
    flag(out, shown.drop_frame);
}
