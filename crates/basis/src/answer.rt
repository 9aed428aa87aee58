// What a call answers: its number in the table of docs/RULES.md, and the two values that go with it.
ghost use Rattle.std.specs.Prelude.{◌≡◌, eqb};
ghost use Rattle.basis.specs.Answer as Table;

use crate::refusal::Refusal;

#[derive(Clone, Copy)]
pub struct Answer {
    pub number: u8,
    pub first: usize,
    pub second: usize,
}

impl Answer {
    // 0: the call did what it is for. The length is what was written, or 0.
    pub fn done(length: usize) -> Self
        ensures { result ≡ Table.done length }
    {
        Self {
            number: 0,
            first: length,
            second: 0,
        }
    }

    // Whether the call did what it is for.
    pub fn is_done(self) -> bool
        ensures { result ≡ eqb self.number 0 }
    {
        self.number == 0
    }

    // A refusal whose two values are 0.
    fn plain(number: u8) -> Self
        ensures { result ≡ Table.plain number }
    {
        Self {
            number,
            first: 0,
            second: 0,
        }
    }
}

// The table.
impl From<Refusal> for Answer {
    ghost from_gives = { λ refusal answer. answer ≡ Table.refused refusal };

    fn from(refusal: Refusal) -> Self {
        match refusal {
            Refusal::LengthMismatch(expected, actual) => Self {
                number: 1,
                first: expected,
                second: actual,
            },
            Refusal::WrongMagic => Self::plain(2),
            Refusal::UnknownFramerate => Self::plain(3),
            Refusal::InvalidFixedBits => Self::plain(4),
            Refusal::ChecksumFailed => Self::plain(5),
            Refusal::SequenceCountMismatch => Self::plain(6),
            Refusal::ServiceNumberMismatch => Self::plain(7),
            Refusal::InvalidServiceNumber => Self::plain(8),
            Refusal::ServiceFlagsMismatched => Self::plain(9),
            Refusal::WouldOverflow => Self {
                number: 10,
                first: 1,
                second: 0,
            },
            Refusal::BufferTooShort(needed, given) => Self {
                number: 11,
                first: needed,
                second: given,
            },
            Refusal::NotWritable => Self::plain(12),
            Refusal::WrongCaptionRun => Self::plain(13),
        }
    }
}
