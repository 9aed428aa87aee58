// Writing a packet: its tests, its room, then the parts. The services are put first, since their writer tests the list.
ghost use Rattle.std.specs.Prelude.{◌≡◌, cond, ◌++◌, ◌∷◌, [], ◌+◌, ◌≤◌, length, take};
ghost use Rattle.basis.specs.Bytes as Bytes;
ghost use Rattle.basis.specs.Check.{size_when};
ghost use Rattle.service_list.specs.ServiceList.{list_present};
ghost use Rattle.values.specs.Checksum.{total, negative};
ghost use Rattle.values.specs.Layout.{caption_run, footer_size, header_size, section_head_size, time_code_id, time_code_size};
ghost use Rattle.write_bytes.specs.PacketWriting as Writing;
ghost use Rattle.write_bytes.specs.Code as Code;

use basis::{Answer, Refusal, put};
use service_list::{MaybeServiceInfo, ServiceInfo};
use values::{Flags, Framerate, Packet, checksum_byte, sequence_bytes};
use values_time::MaybeTimeCode;
use write_checks::others_writable;

// Writes a packet at the start of the lent bytes.
pub fn write_packet(
    framerate: Framerate,
    sequence: u16,
    time_code: MaybeTimeCode,
    service_info: MaybeServiceInfo,
    captions: &[u8],
    out: &mut [u8],
) -> Answer
    ensures value { result ≡ (Writing.packet_written framerate sequence time_code service_info captions.now out.old).answer }
    ensures out_after { out.new ≡ (Writing.packet_written framerate sequence time_code service_info captions.now out.old).buffer }
{
    let others = others_writable(framerate, time_code, captions.len());
    let others_answer = others.answer;
    if !others_answer.is_done() {
        return others_answer;
    }
    let answer = put_services(service_info, others.length, out);
    if !answer.is_done() {
        return answer;
    }
    let size = answer.first;
    let time_bytes = others.time_code;
    let header = header_bytes(size, framerate, flags(time_code, service_info), sequence);
    put_front(header, time_code.present, time_bytes, captions, out);
    put_footer(sequence, size - Packet::FOOTER_LEN, out);
    answer
}

// What the packet has: captions always, which are on air, the others where they are held.
fn flags(time_code: MaybeTimeCode, service_info: MaybeServiceInfo) -> Flags
    ensures { result ≡ Writing.held_flags time_code service_info }
{
    if !service_info.present {
        return Flags {
            time_code: time_code.present,
            cc_data: true,
            svc_info: false,
            svc_info_start: false,
            svc_info_change: false,
            svc_info_complete: false,
            caption_service_active: true,
        };
    }
    Flags {
        time_code: time_code.present,
        cc_data: true,
        svc_info: true,
        svc_info_start: service_info.service_info.start,
        svc_info_change: service_info.service_info.change,
        svc_info_complete: service_info.service_info.complete,
        caption_service_active: true,
    }
}

// Tests the list that is held, and the room for the packet, of which the other parts have so many bytes; then puts the
// section where it stands, in front of the footer. 0 goes with the packet's length.
fn put_services(service_info: MaybeServiceInfo, others: usize, out: &mut [u8]) -> Answer
    requires footer_size_le_others { footer_size ≤ others }
    requires others_bound { others ≤ Code.most_others }
    ensures value { result ≡ (Code.services_put service_info others out.old).answer }
    ensures out_after { out.new ≡ (Code.services_put service_info others out.old).buffer }
{
    if service_info.present {
        return put_list(service_info.service_info, others, out);
    }
    let room = out.len();
    if room < others {
        return Answer::from(Refusal::BufferTooShort(others, room));
    }
    Answer::done(others)
}

// The section's writer tests the entries. Where there is no room for the packet they are tested by themselves, since 12
// comes before 11.
fn put_list(list: ServiceInfo, others: usize, out: &mut [u8]) -> Answer
    requires footer_size_le_others { footer_size ≤ others }
    requires others_bound { others ≤ Code.most_others }
    ensures value { result ≡ (Code.services_put (list_present list) others out.old).answer }
    ensures out_after { out.new ≡ (Code.services_put (list_present list) others out.old).buffer }
{
    let length = list.byte_len();
    if !length.is_done() {
        return length;
    }
    let needed = others + length.first;
    let room = out.len();
    if room < needed {
        let tested = list.writable();
        if !tested.is_done() {
            return tested;
        }
        return Answer::from(Refusal::BufferTooShort(needed, room));
    }
    let at = others - Packet::FOOTER_LEN;
    let written = list.write_into(&mut out[at..]);
    if !written.is_done() {
        return written;
    }
    Answer::done(needed)
}

fn header_bytes(size: usize, framerate: Framerate, flags: Flags, sequence: u16) -> [u8; 7]
    requires size_bound { size ≤ 218 }
    requires id_bound { framerate.id ≤ 8 }
    ensures { result ≡ Writing.header_bytes size framerate flags sequence }
{
    let count = sequence_bytes(sequence);
    [
        0x96,
        0x69,
        size as u8,
        framerate.id * 16 + 0x0F,
        u8::from(flags),
        count[0],
        count[1],
    ]
}

// What stands in front of the services: header, time code, captions, each where the one before it ends. The room for
// the packet is tested, so that no put refuses.
fn put_front(header: [u8; 7], timed: bool, time_code: [u8; 4], captions: &[u8], out: &mut [u8])
    requires captions_len_bound { length captions.now ≤ caption_run }
    requires captions_in_bounds { header_size + size_when timed time_code_size + (section_head_size + length captions.now) ≤ length out.old }
    ensures { out.new ≡ Bytes.over 0 (header ++ cond timed (time_code_id ∷ time_code) [] ++ Writing.captions_bytes captions.now) out.old }
{
    put(out, 0, &header);
    let captions_at = put_time_code(timed, time_code, Packet::HEADER_LEN, out);
    put_captions(captions, captions_at, out);
}

fn put_time_code(timed: bool, time_code: [u8; 4], at: usize, out: &mut [u8]) -> usize
    requires { at + size_when timed time_code_size ≤ length out.old }
    ensures value { result ≡ at + size_when timed time_code_size }
    ensures out_after { out.new ≡ Bytes.over at (cond timed (time_code_id ∷ time_code) []) out.old }
{
    if !timed {
        return at;
    }
    let id = [Packet::TIME_CODE_ID];
    put(out, at, &id);
    put(out, at + 1, &time_code);
    at + Packet::TIME_CODE_LEN
}

// The captions go in as they are.
fn put_captions(captions: &[u8], at: usize, out: &mut [u8])
    requires captions_len_bound { length captions.now ≤ caption_run }
    requires captions_in_bounds { at + (section_head_size + length captions.now) ≤ length out.old }
    ensures { out.new ≡ Bytes.over at (Writing.captions_bytes captions.now) out.old }
{
    let run = captions.len();
    let head = [Packet::CC_DATA_ID, 0xE0 + (run / Packet::TRIPLET_LEN) as u8];
    put(out, at, &head);
    put(out, at + Packet::SECTION_HEAD_LEN, captions);
}

// The checksum is of all that stands before it.
fn put_footer(sequence: u16, at: usize, out: &mut [u8])
    requires { at + footer_size ≤ length out.old }
    ensures { out.new ≡ Bytes.over at (Writing.footer_bytes sequence ++ negative (total (take at out.old ++ Writing.footer_bytes sequence)) ∷ []) out.old }
{
    let count = sequence_bytes(sequence);
    let footer = [Packet::CDP_FOOTER_ID, count[0], count[1]];
    put(out, at, &footer);
    let end = at + 3;
    let sum = [checksum_byte(&out[..end])];
    put(out, end, &sum);
}
