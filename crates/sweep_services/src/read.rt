// What a reader answers, fed to a digest.
ghost use Rattle.std.specs.Prelude.{◌≡◌};
ghost use Rattle.service_list.specs.Section.{section_read};
ghost use Rattle.sweep_services.specs.Sweep as Sweep;

use crate::good;
use basis::Answer;
use report::{entry_fed, feed, list_fed};
use service_list::{ServiceEntry, ServiceInfo};
use std::array;

// An entry: of the answer only its number, since the two others are 0.
#[tactic(auto, unfolding(crate::specs::Sweep::entry_step))]
pub fn entry(digest: u64, kind: u64, last_two: u64) -> u64
    ensures { result ≡ Sweep.entry_step kind digest last_two }
{
    let read = ServiceEntry::parse([
        0x65,
        0x6E,
        0x67,
        (kind % 256) as u8,
        (last_two / 256 % 256) as u8,
        (last_two % 256) as u8,
    ]);
    match read {
        Ok(entry) => entry_fed(feed(digest, 0), entry),
        Err(refused) => feed(digest, Answer::from(refused.refusal).number),
    }
}

// A section of one entry.
#[tactic(auto, unfolding(crate::specs::Sweep::header_step))]
pub fn one(digest: u64, header: u64, kind: u64) -> u64
    ensures { result ≡ Sweep.header_step header digest kind }
{
    let bytes = [
        0x73u8,
        0x81,
        (header % 256) as u8,
        0x65,
        0x6E,
        0x67,
        (kind % 256) as u8,
        0x3F,
        0xFF,
    ];
    section(digest, &bytes)
}

// The good section of a count in another size and with another byte at a place.
pub fn changed(digest: u64, count: u64, size: u64, place: u64, byte: u64) -> u64
    ensures { result ≡ Sweep.changed_step digest count size place byte }
{
    let mut bytes: [u8; 128] = array::from_fn(|at| good::byte(count, at as u64));
    bytes[(place % 128) as usize] = (byte % 256) as u8;
    let end = (size % 128) as usize;
    section(digest, &bytes[..end])
}

// The answer, and the list where there is one.
#[tactic(auto, unfolding(crate::specs::Sweep::section_fed))]
fn section(digest: u64, bytes: &[u8]) -> u64
    ensures { result ≡ Sweep.section_fed digest (section_read bytes.now) }
{
    match ServiceInfo::parse(bytes) {
        Ok(list) => list_fed(answer_fed(digest, Answer::done(0)), list, list.count),
        Err(refused) => answer_fed(digest, Answer::from(refused.refusal)),
    }
}

// The three numbers of an answer, a byte of each.
fn answer_fed(digest: u64, answer: Answer) -> u64
    ensures { result ≡ Sweep.low_bytes_fed digest answer }
{
    let number = feed(digest, answer.number);
    let first = feed(number, (answer.first % 256) as u8);
    feed(first, (answer.second % 256) as u8)
}
