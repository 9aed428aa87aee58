// The plain words of a tape: marks, numbers, flags and bytes. A place is an index into the line, and a word is `None` where
// it is malformed.
ghost use Rattle.std.specs.Prelude.{◌≡◌, ◌+◌, ◌*◌, ◌<◌, ◌≤◌, ◌^◌, length, IfSome, MatchOption};
ghost use Rattle.tape.specs.Words as Words;

// What a word gives, and the place behind it.
#[derive(Clone, Copy)]
pub struct Word<T> {
    pub value: T,
    pub next: usize,
}

// The place behind the letter of an operation and its space.
pub fn operands(line: &[u8]) -> Option<usize>
    ensures { result ≡ Words.operands_of line.now }
{
    mark(line, 1, b' ')
}

// The place behind a mark, where the mark is the next byte.
#[tactic(auto, unfolding(crate::specs::Words::mark_at))]
pub fn mark(line: &[u8], at: usize, byte: u8) -> Option<usize>
    ensures { result ≡ Words.mark_at line.now at byte }
{
    if *line.get(at)? == byte {
        Some(at + 1)
    } else {
        None
    }
}

// Whether the line ends here.
pub fn ends(line: &[u8], at: usize) -> bool
    ensures { result ≡ Words.ends_at line.now at }
{
    at == line.len()
}

// A decimal number up to `most`.
pub fn number(line: &[u8], at: usize, most: u32) -> Option<Word<u32>>
    ensures value { result ≡ Words.number_at line.now at most }
    ensures bound { IfSome result (λ word. word.value ≤ most) }
{
    let (_, rest) = line.split_at_checked(at)?;
    let found = digits(rest)?;
    if found.next == 0 {
        return None;
    }
    if most < found.value {
        return None;
    }
    Some(Word {
        value: found.value,
        next: at + found.next,
    })
}

// A decimal number that fits a byte.
pub fn small(line: &[u8], at: usize) -> Option<Word<u8>>
    ensures { result ≡ Words.small_at line.now at }
{
    let found = number(line, at, 255)?;
    Some(Word {
        value: found.value as u8,
        next: found.next,
    })
}

// The number that the digits make with which these bytes begin, if it fits, and how many digits they are.
#[tactic(auto, using(crate::proofs::WordReads::digits_stopped, crate::proofs::WordReads::digits_over, crate::proofs::WordReads::digits_ended))]
fn digits(bytes: &[u8]) -> Option<Word<u32>>
    ensures { MatchOption result (2 ^ 32 ≤ Words.decimal 0 (Words.digits_of bytes.now)) (λ word.
        (word.value ≡ Words.decimal 0 (Words.digits_of bytes.now)) × (word.next ≡ length (Words.digits_of bytes.now))) }
{
    let mut value: u32 = 0;
    for (k, byte) in bytes.iter().enumerate() {
        if !byte.is_ascii_digit() {
            return Some(Word { value, next: k });
        }
        value = value.checked_mul(10)?.checked_add(u32::from(*byte - b'0'))?;
    }
    Some(Word {
        value,
        next: bytes.len(),
    })
}

#[tactic(auto, unfolding(crate::specs::Words::digit_value))]
fn digit_of(byte: u8) -> Option<u8>
    ensures value { result ≡ Words.digit_value byte }
    ensures bound { IfSome result (λ digit. digit < 16) }
{
    match byte {
        b'0'..=b'9' => Some(byte - b'0'),
        b'a'..=b'f' => Some(byte - b'a' + 10),
        _ => None,
    }
}

#[tactic(auto, unfolding(crate::specs::Words::flag_at))]
pub fn flag(line: &[u8], at: usize) -> Option<Word<bool>>
    ensures { result ≡ Words.flag_at line.now at }
{
    match mark(line, at, b'0') {
        Some(next) => Some(Word { value: false, next }),
        None => Some(Word {
            value: true,
            next: mark(line, at, b'1')?,
        }),
    }
}

// Two digits.
#[tactic(auto, unfolding(crate::specs::Words::byte_at), using(crate::proofs::WordReads::byte_past))]
pub fn byte(line: &[u8], at: usize) -> Option<Word<u8>>
    ensures { result ≡ Words.byte_at line.now at }
{
    let [high, low, ..] = line.get(at..)? else {
        return None;
    };
    let high = digit_of(*high)?;
    let low = digit_of(*low)?;
    Some(Word {
        value: high * 16 + low,
        next: at + 2,
    })
}

// A dash for none, or one at least and no more than `given` has room for.
#[tactic(auto, unfolding(crate::specs::Words::bytes_at), using(crate::proofs::WordReads::bytes_dash))]
pub fn bytes(line: &[u8], at: usize, given: &mut [u8]) -> Option<Word<usize>>
    ensures value { result ≡ Words.bytes_at (length given.old) line.now at }
    ensures given_after { given.new ≡ Words.bytes_in given.old line.now at }
{
    if let Some(next) = mark(line, at, b'-') {
        return Some(Word { value: 0, next });
    }
    let found = pairs(line, at, given);
    if found.value == 0 {
        return None;
    }
    Some(found)
}

fn pairs(line: &[u8], from: usize, given: &mut [u8]) -> Word<usize>
    ensures value { result ≡ Words.pairs_at (length given.old) line.now from }
    ensures given_after { given.new ≡ Words.bytes_in given.old line.now from }
{
    let mut at = from;
    for (k, place) in given.iter_mut().enumerate() {
        let Some(found) = byte(line, at) else {
            return Word { value: k, next: at };
        };
        *place = found.value;
        at = found.next;
    }
    Word {
        value: given.len(),
        next: at,
    }
}
