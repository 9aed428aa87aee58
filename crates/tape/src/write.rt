// The operations L and N: a section and an entry, written into lent bytes.
use crate::print::Output;
use crate::{lent, lists, show, words};
use basis::Answer;
use report::fill;

pub fn section(line: &[u8], lent: &mut [u8], out: &mut Output<impl Print + Eprint>) -> Option<()> {
    let room = lent::room(line)?;
    let list = lists::list(line, words::mark(line, room.next, b' ')?)?;
    let lent = filled(line, list.next, room.value, lent)?;
    let answer = list.value.write_into(lent);
    out.word(b"L ");
    written(answer, lent, out);
    Some(())
}

pub fn entry(line: &[u8], lent: &mut [u8], out: &mut Output<impl Print + Eprint>) -> Option<()> {
    let room = lent::room(line)?;
    let entry = lists::entry(line, words::mark(line, room.next, b' ')?)?;
    let lent = filled(line, entry.next, room.value, lent)?;
    let answer = entry.value.write_into(lent);
    out.word(b"N ");
    written(answer, lent, out);
    Some(())
}

// So many of the lent bytes, as they are lent, where the line ends here.
fn filled<'a>(line: &[u8], at: usize, room: u32, lent: &'a mut [u8]) -> Option<&'a mut [u8]> {
    if !words::ends(line, at) {
        return None;
    }
    let lent = lent.get_mut(..room as usize)?;
    fill(lent);
    Some(lent)
}

// The answer and the whole of the lent bytes.
pub fn written(answer: Answer, lent: &[u8], out: &mut Output<impl Print + Eprint>) {
    show::answer(out, answer);
    lent::show(out, lent);
}
