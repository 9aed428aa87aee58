// Why a call refuses: the refusals of the table in docs/RULES.md, and beside one of reading the place of the byte that is
// refused.
ghost use Rattle.std.specs.Prelude.{◌≡◌};
ghost use Rattle.basis.specs.Check.{refusal_place, refused_at};

#[derive(Clone, Copy, PartialEq, Eq)]
pub enum Refusal {
    // 1: the input ends too early, or has another length than it says: the length expected, and the one met.
    LengthMismatch(usize, usize),
    // 2: an id or magic byte is another.
    WrongMagic,
    // 3: the rate is none of the eight.
    UnknownFramerate,
    // 4: a bit with a fixed value has the other.
    InvalidFixedBits,
    // 5: the checksum byte is another.
    ChecksumFailed,
    // 6: header and footer have different sequences.
    SequenceCountMismatch,
    // 7: an entry and its header byte name different services.
    ServiceNumberMismatch,
    // 8: a digital service has number 0.
    InvalidServiceNumber,
    // 9: the section and the packet's header have different flags.
    ServiceFlagsMismatched,
    // 10: the list is full, or counts more entries than it has places.
    WouldOverflow,
    // 11: the lent buffer is too short: the bytes needed, and those lent.
    BufferTooShort(usize, usize),
    // 12: no reader could give the value back.
    NotWritable,
    // 13: the caption run is over 93 bytes, or no multiple of 3.
    WrongCaptionRun,
}

// Each reader says from which byte its places are counted.
#[derive(Clone, Copy, PartialEq, Eq)]
pub struct Refused {
    pub refusal: Refusal,
    pub place: usize,
}

impl Refused {
    pub fn at(refusal: Refusal, place: usize) -> Self
        ensures { result ≡ refused_at refusal place }
    {
        Self { refusal, place }
    }

    // The place of what was refused, 0 where nothing was.
    pub fn place_of(refused: Option<Self>) -> usize
        ensures { result ≡ refusal_place refused }
    {
        match refused {
            Some(refused) => refused.place,
            None => 0,
        }
    }
}
