// A packet that is accepted, made from its recipe. Each part is put behind the one before it.
ghost use Rattle.std.specs.Prelude.{◌≡◌, ◌≤◌, ◌/◌, ◌%◌, length};
ghost use Rattle.basis.specs.Bytes.{over};
ghost use Rattle.basis.specs.Made.{made};
ghost use Rattle.sweep_reader.specs.Make as Make;
ghost use Rattle.text.specs.Room.{PutInRoom};

use crate::bytes::repeat;
use crate::entry;
use crate::mend::mend;
use crate::recipes::Recipe;
use text::{byte, word};

// It is also what future sections contain and what stands behind a footer, so that a wrong length meets it.
const FOOTER_ID: u8 = 0x74;

// Makes the packet at the start of a lent buffer, as much of it as there is room for, and gives its size.
pub fn packet(out: &mut [u8], recipe: Recipe) -> usize
    ensures value { result ≡ length (Make.packet_made recipe (length out.old)) }
    ensures bound { result ≤ length out.old }
    ensures out_after { out.new ≡ over 0 (Make.packet_made recipe (length out.old)) out.old }
{
    let size = parts(out, recipe);
    finish(&mut out[..size], recipe.behind);
    size
}

// The size in its place, and the checksum right.
fn finish(packet: &mut [u8], behind: u8)
    ensures { packet.new ≡ Make.finished behind packet.old }
{
    let size = packet.len();
    byte(packet, 2, (size % 256) as u8);
    mend(packet, behind);
}

fn parts(out: &mut [u8], recipe: Recipe) -> usize
    ensures { PutInRoom 0 (Make.parts_made recipe) out.old result out.new }
{
    let header_end = header(out, recipe);
    let time_code_end = time_code(out, header_end, recipe);
    let captions_end = captions(out, time_code_end, recipe);
    let services_end = services(out, captions_end, recipe);
    let futures_end = futures(out, services_end, recipe.futures);
    let footer_end = footer(out, futures_end, recipe.sequence);
    repeat(out, footer_end, FOOTER_ID, recipe.behind)
}

// The size comes when all else is there.
fn header(out: &mut [u8], recipe: Recipe) -> usize
    ensures { PutInRoom 0 (Make.header_made recipe) out.old result out.new }
{
    let bytes = [
        0x96,
        0x69,
        0,
        recipe.rate,
        recipe.flags,
        high(recipe.sequence),
        low(recipe.sequence),
    ];
    word(out, 0, &bytes)
}

fn high(sequence: u16) -> u8
    ensures { result ≡ sequence / 256 }
{
    (sequence / 256) as u8
}

fn low(sequence: u16) -> u8
    ensures { result ≡ sequence % 256 }
{
    (sequence % 256) as u8
}

fn time_code(out: &mut [u8], at: usize, recipe: Recipe) -> usize
    ensures { PutInRoom at (Make.time_code_made recipe) out.old result out.new }
{
    if recipe.flags / 0x80 % 2 == 0 {
        return at;
    }
    let bytes = [0x71, 0xD0 + recipe.number % 16, 0xB4, 0xA5, 0x99];
    word(out, at, &bytes)
}

fn captions(out: &mut [u8], at: usize, recipe: Recipe) -> usize
    ensures { PutInRoom at (Make.captions_made recipe) out.old result out.new }
{
    if recipe.flags / 0x40 % 2 == 0 {
        return at;
    }
    let count = recipe.captions % 32;
    let bytes = [0x72, 0xE0 + count];
    let behind = word(out, at, &bytes);
    caption_bytes(out, behind, recipe.number, 3 * count)
}

fn caption_bytes(out: &mut [u8], from: usize, number: u8, count: u8) -> usize
    ensures { PutInRoom from (made (Make.caption_byte number) count) out.old result out.new }
{
    let mut at = from;
    // The number is what is made of; a closure would have to change what is lent.
    for k in 0..count {
        at = byte(out, at, caption_byte(number, k));
    }
    at
}

fn caption_byte(number: u8, k: u8) -> u8
    ensures { result ≡ Make.caption_byte number k }
{
    ((k as u64 * 7 + number as u64) % 256) as u8
}

// The section's three flags stand two bits higher than the header's.
fn services(out: &mut [u8], at: usize, recipe: Recipe) -> usize
    ensures { PutInRoom at (Make.services_made recipe) out.old result out.new }
{
    if recipe.flags / 0x20 % 2 == 0 {
        return at;
    }
    let count = recipe.services % 16;
    let bytes = [0x73, 0x80 + recipe.flags / 4 % 8 * 16 + count];
    let behind = word(out, at, &bytes);
    entries(out, behind, recipe.number, count)
}

fn entries(out: &mut [u8], from: usize, number: u8, count: u8) -> usize
    ensures { PutInRoom from (Make.entries_made number count) out.old result out.new }
{
    let mut at = from;
    // The number is what is made of; a closure would have to change what is lent.
    for k in 0..count {
        let bytes = entry::bytes(number, k);
        at = word(out, at, &bytes);
    }
    at
}

// Ten bytes in all, whose content the first section has.
fn futures(out: &mut [u8], at: usize, count: u8) -> usize
    ensures { PutInRoom at (Make.futures_made count) out.old result out.new }
{
    match count {
        0 => at,
        1 => future(out, at, 0x75, 8),
        _ => {
            let second = future(out, at, 0x75, 6);
            future(out, second, 0xEF, 0)
        }
    }
}

fn future(out: &mut [u8], at: usize, id: u8, size: u8) -> usize
    ensures { PutInRoom at (Make.future_made id size) out.old result out.new }
{
    let bytes = [id, size];
    let behind = word(out, at, &bytes);
    repeat(out, behind, FOOTER_ID, size)
}

// The checksum byte stays where bytes follow it.
fn footer(out: &mut [u8], at: usize, sequence: u16) -> usize
    ensures { PutInRoom at (Make.footer_made sequence) out.old result out.new }
{
    let bytes = [FOOTER_ID, high(sequence), low(sequence), 0x5A];
    word(out, at, &bytes)
}
