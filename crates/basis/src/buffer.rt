// A byte by its place, and bytes put into a lent buffer.
ghost use Rattle.std.specs.Prelude.{◌∷◌, [], ◌≡◌, ◌+◌, ◌-◌, ◌≤◌, length};
ghost use Rattle.basis.specs.Bytes as Bytes;
ghost use Rattle.basis.specs.Code as Code;
ghost use Rattle.basis.specs.Check.{answer, room_check, verdict};

use crate::answer::Answer;
use crate::refusal::Refusal;

// The byte at a place, 0 past the end.
pub fn byte_at(bytes: &[u8], at: usize) -> u8
    ensures { result ≡ Bytes.byte bytes.now at }
{
    if at < bytes.len() { bytes[at] } else { 0 }
}

// Puts the bytes from a place on, or answers 11 with their number and the room from there on, and writes nothing.
pub fn put(out: &mut [u8], at: usize, bytes: &[u8]) -> Answer
    ensures value { result ≡ Code.put_answer at bytes.now out.old }
    ensures out_after { out.new ≡ Code.put at bytes.now out.old }
{
    let room = out.len();
    let needed = bytes.len();
    // No bytes fit anywhere, past the end too: that is left to the answer.
    if room < needed || room - needed < at {
        return answered(needed, room_from(room, at));
    }
    copy(out, at, bytes);
    Answer::done(0)
}

// How many of so many places stand from one on.
fn room_from(count: usize, at: usize) -> usize
    ensures { result ≡ count - at }
{
    if count < at { 0 } else { count - at }
}

// 11 where there is too little room.
fn answered(needed: usize, given: usize) -> Answer
    ensures { result ≡ answer (verdict (room_check needed given ∷ [])) 0 }
{
    if given < needed {
        return Answer::from(Refusal::BufferTooShort(needed, given));
    }
    Answer::done(0)
}

#[tactic(auto, using(crate::proofs::Puts::over_none))]
fn copy(out: &mut [u8], at: usize, bytes: &[u8])
    requires { at + length bytes.now ≤ length out.old }
    ensures { out.new ≡ Bytes.over at bytes.now out.old }
{
    // Where there are no bytes the call of the copying is left out, as for a packet with no captions.
    if bytes.is_empty() {
        return;
    }
    out[at..at + bytes.len()].copy_from_slice(bytes);
}
