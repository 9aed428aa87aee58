// The operation Y: why a packet is refused.
use crate::print::Output;
use crate::show;
use explain::{Why, reason_rule};

// The tape's reader stays as it is.
pub fn packet(packet: &[u8], out: &mut Output<impl Print + Eprint>) {
    let why = Why::of(packet);
    if why.answer.is_done() {
        out.word(b"Y accepted");
    } else {
        refused(packet, why, out);
    }
}

fn refused(packet: &[u8], why: Why, out: &mut Output<impl Print + Eprint>) {
    out.word(b"Y rule ");
    out.decimal(reason_rule(why.reason) as u64);
    out.word(b" answer ");
    show::answer(out, why.answer);
    out.word(b" place ");
    out.decimal(why.place as u64);
    out.word(b" found ");
    out.found(packet, why.place, why.reason);
    out.word(b" allowed ");
    out.allowed(why.reason);
}
