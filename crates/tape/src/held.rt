// A rate, and what a writer may hold, as a tape spells them.
ghost use Rattle.std.specs.Prelude.{◌≡◌};
ghost use Rattle.tape.specs.Held as Held;

use crate::lists;
use crate::words::{Word, flag, mark, number, small};
use service_list::MaybeServiceInfo;
use values::Framerate;
use values_time::{MaybeTimeCode, TimeCode};

// Any three numbers; whether they are one of the eight rates is the writer's to say.
#[tactic(auto, unfolding(crate::specs::Held::held_rate_at))]
pub fn rate(line: &[u8], at: usize) -> Option<Word<Framerate>>
    ensures { result ≡ Held.held_rate_at line.now at }
{
    let id = small(line, at)?;
    let numer = number(line, mark(line, id.next, b'/')?, u32::MAX)?;
    let denom = number(line, mark(line, numer.next, b'/')?, u32::MAX)?;
    Some(Word {
        value: Framerate {
            id: id.value,
            numer: numer.value,
            denom: denom.value,
        },
        next: denom.next,
    })
}

// A dash where none is held.
#[tactic(auto, unfolding(crate::specs::Held::held_time_at))]
pub fn time(line: &[u8], at: usize) -> Option<Word<MaybeTimeCode>>
    ensures { result ≡ Held.held_time_at line.now at }
{
    match mark(line, at, b'-') {
        Some(next) => Some(Word {
            value: MaybeTimeCode::ABSENT,
            next,
        }),
        None => clock(line, at),
    }
}

#[tactic(auto, unfolding(crate::specs::Held::clock_at))]
fn clock(line: &[u8], at: usize) -> Option<Word<MaybeTimeCode>>
    ensures { result ≡ Held.clock_at line.now at }
{
    let hours = small(line, at)?;
    let minutes = small(line, mark(line, hours.next, b':')?)?;
    let seconds = small(line, mark(line, minutes.next, b':')?)?;
    let frames = small(line, mark(line, seconds.next, b':')?)?;
    let field = flag(line, mark(line, frames.next, b':')?)?;
    let drop_frame = flag(line, mark(line, field.next, b':')?)?;
    let time_code = TimeCode::new(
        hours.value,
        minutes.value,
        seconds.value,
        frames.value,
        field.value,
        drop_frame.value,
    );
    Some(Word {
        value: MaybeTimeCode {
            present: true,
            time_code,
        },
        next: drop_frame.next,
    })
}

// A dash where none are held.
#[tactic(auto, unfolding(crate::specs::Held::held_services_at))]
pub fn services(line: &[u8], at: usize) -> Option<Word<MaybeServiceInfo>>
    ensures { result ≡ Held.held_services_at line.now at }
{
    if let Some(next) = mark(line, at, b'-') {
        return Some(Word {
            value: MaybeServiceInfo::absent(),
            next,
        });
    }
    let list = lists::list(line, at)?;
    Some(Word {
        value: MaybeServiceInfo {
            present: true,
            service_info: list.value,
        },
        next: list.next,
    })
}
