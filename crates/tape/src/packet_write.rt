// The operation W: a packet, written into lent bytes.
use crate::print::Output;
use crate::write::written;
use crate::{held, lent, words};
use report::fill;
use service_list::{MaybeServiceInfo, ServiceEntry, ServiceInfo};
use values_time::{MaybeTimeCode, TimeCode};
use writer::CDPWriter;

pub fn write(
    line: &[u8],
    given: &mut [u8],
    lent: &mut [u8],
    out: &mut Output<impl Print + Eprint>,
) -> Option<()> {
    let room = lent::room(line)?;
    let rate = held::rate(line, words::mark(line, room.next, b' ')?)?;
    let sequence = words::number(line, words::mark(line, rate.next, b' ')?, 0xFFFF)?;
    let time = held::time(line, words::mark(line, sequence.next, b' ')?)?;
    let captions = words::bytes(line, words::mark(line, time.next, b' ')?, given)?;
    let services = held::services(line, words::mark(line, captions.next, b' ')?)?;
    if !words::ends(line, services.next) {
        return None;
    }
    let captions = given.get(..captions.value)?;
    let lent = lent.get_mut(..room.value as usize)?;
    fill(lent);
    let writer = holding(time.value, services.value, sequence.value as u16);
    let answer = writer.write(rate.value, captions, lent);
    out.word(b"W ");
    written(answer, lent, out);
    Some(())
}

// What a line does not hold, and sequence 0, are not set: they are as the flush left them.
fn holding(time_code: MaybeTimeCode, service_info: MaybeServiceInfo, sequence: u16) -> CDPWriter {
    let mut writer = used().flush();
    if time_code.present {
        writer = writer.set_time_code(time_code);
    }
    if sequence != 0 {
        writer = writer.set_sequence_count(sequence);
    }
    if service_info.present {
        writer = with_list(writer, service_info);
    }
    writer
}

// A line is about what writing answers, so that a list that counts over 15, which the setter refuses, is held past it.
fn with_list(writer: CDPWriter, service_info: MaybeServiceInfo) -> CDPWriter {
    let set = writer.set_service_info(service_info);
    let given_back = set.writer;
    if set.answer.is_done() {
        return given_back;
    }
    let time_code = given_back.time_code;
    CDPWriter {
        time_code,
        service_info,
        sequence: given_back.sequence,
    }
}

// Holds one of everything, which a flush is to take away.
fn used() -> CDPWriter {
    let timed = CDPWriter::new().set_time_code(MaybeTimeCode {
        present: true,
        time_code: TimeCode::new(1, 2, 3, 4, true, true),
    });
    let counted = timed.set_sequence_count(0x0506);
    let set = counted.set_service_info(MaybeServiceInfo {
        present: true,
        service_info: one_entry(),
    });
    set.writer
}

fn one_entry() -> ServiceInfo {
    let added = ServiceInfo::default().add_service(ServiceEntry::FILLER);
    let list = added.list;
    list.set_change(true)
}
