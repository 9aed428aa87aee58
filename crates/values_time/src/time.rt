// Rule 5: the time code, the four bytes behind its id byte.
ghost use Rattle.std.specs.Prelude.{◌≡◌, ◌∷◌, [], ◌≤◌, ◌<◌, get_or};
ghost use Rattle.values_time.specs.Time as Time;
ghost use Rattle.values_time.specs.Code as Code;

use basis::{Refusal, Refused, flag};

#[derive(Clone, Copy)]
pub struct TimeCode {
    pub hours: u8,
    pub minutes: u8,
    pub seconds: u8,
    pub frames: u8,
    pub field: bool,
    pub drop_frame: bool,
}

// A time code that may be absent; then it is zeros. No Option: a writer may be handed an absent one that has values, which
// it does not read (absent_time_code_kept and unheld_time_code_tested in must-fail/ of writer and write_checks).
#[derive(Clone, Copy)]
pub struct MaybeTimeCode {
    pub present: bool,
    pub time_code: TimeCode,
}

impl MaybeTimeCode {
    pub const ABSENT: Self = Self {
        present: false,
        time_code: TimeCode::NONE,
    };

    // Nothing calls this: its contract holds the constant above to the rules.
    fn held() -> Self
        ensures { result ≡ Time.time_absent }
    {
        Self::ABSENT
    }
}

impl TimeCode {
    // Zeros, where there is no time code.
    pub const NONE: Self = Self {
        hours: 0,
        minutes: 0,
        seconds: 0,
        frames: 0,
        field: false,
        drop_frame: false,
    };

    // How many tens bits the four bytes have.
    const HOURS_TENS_BITS: u8 = 2;

    const MINUTES_TENS_BITS: u8 = 3;

    const SECONDS_TENS_BITS: u8 = 3;

    const FRAMES_TENS_BITS: u8 = 2;

    // The largest values that so many tens bits and units up to 9 can hold.
    pub const MAX_HOURS: u8 = 39;

    pub const MAX_MINUTES: u8 = 79;

    pub const MAX_SECONDS: u8 = 79;

    pub const MAX_FRAMES: u8 = 39;

    // Nothing calls these two: their contracts hold the constants above to the rules.
    fn held() -> [u8; 4]
        ensures { result ≡ Time.most_hours ∷ Time.most_minutes ∷ Time.most_seconds ∷ Time.most_frames ∷ [] }
    {
        [
            Self::MAX_HOURS,
            Self::MAX_MINUTES,
            Self::MAX_SECONDS,
            Self::MAX_FRAMES,
        ]
    }

    fn held_none() -> Self
        ensures { result ≡ Time.no_time }
    {
        Self::NONE
    }

    // The six values as they are; what cannot be written is refused in writing.
    pub fn new(
        hours: u8,
        minutes: u8,
        seconds: u8,
        frames: u8,
        field: bool,
        drop_frame: bool,
    ) -> Self
        ensures { result ≡ Time.time_code hours minutes seconds frames field drop_frame }
    {
        Self {
            hours,
            minutes,
            seconds,
            frames,
            field,
            drop_frame,
        }
    }

    // No TryFrom here and in `to_bytes`: what reads bytes is called `parse` in each type, so that it is found by that name.
    // Reads hours, minutes, seconds and frames, in that order; a refusal's place is among the four bytes.
    #[tactic(auto, using(crate::proofs::TimeReads::hours_wrong, crate::proofs::TimeReads::minutes_wrong, crate::proofs::TimeReads::frames_wrong, crate::proofs::TimeReads::all_right))]
    pub fn parse(bytes: [u8; 4]) -> Result<Self, Refused>
        ensures { result ≡ Time.time_read (get_or bytes 0 0) (get_or bytes 1 0) (get_or bytes 2 0) (get_or bytes 3 0) }
    {
        let [hours, minutes, seconds, frames] = bytes;
        // Both bits of C0 are set.
        if hours / 64 % 4 != 3 {
            return Err(Refused::at(Refusal::InvalidFixedBits, 0));
        }
        // Bit 80 is set.
        if minutes / 128 % 2 != 1 {
            return Err(Refused::at(Refusal::InvalidFixedBits, 1));
        }
        // Bit 40 is clear.
        if frames / 64 % 2 != 0 {
            return Err(Refused::at(Refusal::InvalidFixedBits, 3));
        }
        Ok(Self::value(hours, minutes, seconds, frames))
    }

    // Makes the four bytes, or refuses a value that they cannot hold.
    #[tactic(auto, using(crate::proofs::TimeWrites::hours_over, crate::proofs::TimeWrites::minutes_over, crate::proofs::TimeWrites::seconds_over, crate::proofs::TimeWrites::frames_over, crate::proofs::TimeWrites::in_range))]
    pub fn to_bytes(self) -> Result<[u8; 4], Refusal>
        ensures { result ≡ Time.time_written self }
    {
        if Self::MAX_HOURS < self.hours
            || Self::MAX_MINUTES < self.minutes
            || Self::MAX_SECONDS < self.seconds
            || Self::MAX_FRAMES < self.frames
        {
            return Err(Refusal::NotWritable);
        }
        Ok(self.bytes())
    }

    // The fixed bits, the flags above and the digits below.
    fn bytes(self) -> [u8; 4]
        requires { Code.InRange self }
        ensures { result ≡ Time.time_bytes self }
    {
        [
            0xC0 + digit_bits(self.hours),
            0x80 + digit_bits(self.minutes),
            flag(self.field, 0x80) + digit_bits(self.seconds),
            flag(self.drop_frame, 0x80) + digit_bits(self.frames),
        ]
    }

    // What the four bytes say, whatever their fixed bits are.
    fn value(hours: u8, minutes: u8, seconds: u8, frames: u8) -> Self
        ensures { result ≡ Time.time_of hours minutes seconds frames }
    {
        Self {
            hours: digits(hours, Self::HOURS_TENS_BITS),
            minutes: digits(minutes, Self::MINUTES_TENS_BITS),
            seconds: digits(seconds, Self::SECONDS_TENS_BITS),
            frames: digits(frames, Self::FRAMES_TENS_BITS),
            field: seconds / 128 % 2 == 1,
            drop_frame: frames / 128 % 2 == 1,
        }
    }
}

// Ten times the tens, which have so many bits, plus the units.
fn digits(byte: u8, tens_bits: u8) -> u8
    requires { tens_bits ≤ 3 }
    ensures { result ≡ Time.digits tens_bits byte }
{
    byte / 16 % (1 << tens_bits) * 10 + units(byte)
}

// The low four bits as they are: 10 to 15 are taken.
fn units(byte: u8) -> u8
    ensures { result ≡ Time.units byte }
{
    byte % 16
}

// The tens above the units.
fn digit_bits(value: u8) -> u8
    requires { value < 80 }
    ensures { result ≡ Time.digit_bits value }
{
    value / 10 * 16 + value % 10
}
