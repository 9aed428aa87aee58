// Digests of what is too much to print.
ghost use Rattle.std.specs.Prelude.{◌≡◌};
ghost use Rattle.sweep_values.specs.Sweep as Sweep;

use basis::Answer;
use report::{all_fed, feed, two_fed};
use values_time::TimeCode;

// Every minute, second and frame of an hour, one past each limit included, with field and drop frame.
pub fn times(hours: u64) -> u64
    ensures { result ≡ Sweep.times_digest hours }
{
    (0..1076004).fold(0, |digest, n| time_fed(digest, hours, n))
}

// Every low byte of a high one.
pub fn sequences(high: u64) -> u64
    ensures { result ≡ Sweep.sequences_digest high }
{
    (0..256).fold(0, |digest, low| sequence_fed(digest, high, low))
}

// What is answered and, where it is done, the four bytes.
#[tactic(auto, unfolding(crate::specs::Sweep::nth_time_fed))]
fn time_fed(digest: u64, hours: u64, n: u64) -> u64
    ensures { result ≡ Sweep.nth_time_fed hours digest n }
{
    let time = TimeCode::new(
        (hours % 256) as u8,
        (n / 13284 % 81) as u8,
        (n / 164 % 81) as u8,
        (n / 4 % 41) as u8,
        n / 2 % 2 == 1,
        n % 2 == 1,
    );
    match time.to_bytes() {
        Ok(bytes) => all_fed(feed(digest, 0), &bytes),
        Err(refusal) => feed(digest, Answer::from(refusal).number),
    }
}

// The sequence's two bytes, the checksum of the smallest packet that has it, and the sequence read back.
#[tactic(auto, unfolding(crate::specs::Sweep::nth_sequence_fed))]
fn sequence_fed(digest: u64, high: u64, low: u64) -> u64
    ensures { result ≡ Sweep.nth_sequence_fed high digest low }
{
    let made = values::sequence_bytes((high % 256 * 256 + low % 256) as u16);
    let packet = [
        0x96u8, 0x69, 0x0D, 0x3F, 0x43, made[0], made[1], 0x72, 0xE0, 0x74, made[0], made[1],
    ];
    let checksum = values::checksum_byte(&packet);
    let back = values::sequence_count(made[0], made[1]);
    two_fed(feed(all_fed(digest, &made), checksum), back as u64)
}
