// Bytes, words and numbers into the output buffer, which is written out when it is full.
ghost use Rattle.std.specs.Prelude.{◌≡◌, is_some, not, replicate};

use explain::Reason;
use text_why::WhyText;

// What is still to be written to standard output.
#[derive(Drop)]
pub struct Output<'a, R> {
    rt: &'a R,
    buffer: [u8; 16384],
    // The place of the next byte, or none once the buffer could not be written out: then nothing more is put, written or
    // said.
    at: Option<usize>,
}

// What is put is mostly a byte or a short word, so what puts these, and `room`, are built into their callers: as calls they
// took a quarter and more of the tape's work.
impl<'a, R: Print + Eprint> Output<'a, R> {
    pub fn new(rt: &'a R) -> Self
        ensures rt { result.rt.now ≡ rt.now }
        ensures buffer { result.buffer ≡ replicate 16384 0 }
        ensures at { result.at ≡ Some 0 }
    {
        Self {
            rt,
            buffer: [0; 16384],
            at: Some(0),
        }
    }

    pub fn has_failed(&self) -> bool
        ensures { result ≡ not (is_some self.now.at) }
    {
        self.at.is_none()
    }

    #[inline(always)]
    pub fn byte(&mut self, byte: u8) {
        if let Some(at) = self.room(1) {
            self.at = Some(text::byte(&mut self.buffer, at, byte));
        }
    }

    #[inline(always)]
    pub fn word(&mut self, word: &[u8]) {
        if self.buffer.len() < word.len() {
            self.straight(word);
        } else {
            if let Some(at) = self.room(word.len()) {
                self.at = Some(text::word(&mut self.buffer, at, word));
            }
        }
    }

    // A word that is longer than the buffer is written by itself, behind what is there.
    fn straight(&mut self, word: &[u8]) {
        self.flush();
        if self.at.is_some() {
            self.at = streams::write(self.rt, word).ok().map(|()| 0);
        }
    }

    // Any number has 20 digits at most.
    pub fn decimal(&mut self, n: u64) {
        if let Some(at) = self.room(20) {
            self.at = Some(text::number(&mut self.buffer, at, b"", n));
        }
    }

    #[inline(always)]
    pub fn bit(&mut self, on: bool) {
        if let Some(at) = self.room(1) {
            self.at = Some(text::flag(&mut self.buffer, at, b"", on));
        }
    }

    // A dash for no bytes.
    pub fn bytes(&mut self, shown: &[u8]) {
        if shown.is_empty() {
            self.byte(b'-');
        }
        self.hex(shown);
    }

    // Two digits for each byte.
    #[inline(always)]
    pub fn hex(&mut self, shown: &[u8]) {
        for byte in shown {
            let Some(at) = self.room(2) else {
                return;
            };
            self.at = Some(text::hex(&mut self.buffer, at, b"", *byte));
        }
    }

    // The bytes that a test found: two at most, and a space.
    pub fn found(&mut self, packet: &[u8], place: usize, reason: Reason) {
        let at = self.room(5);
        self.at = at.map(|at| text_values::found(&mut self.buffer, at, packet, place, reason));
    }

    // What a test takes.
    pub fn allowed(&mut self, reason: Reason) {
        let at = self.room(WhyText::MOST_ALLOWED);
        self.at = at.map(|at| text_values::allowed(&mut self.buffer, at, reason));
    }

    // The place of the next byte. The buffer is written out where fewer than so many bytes are left, so that what is put next
    // is not cut.
    #[inline(always)]
    fn room(&mut self, count: usize) -> Option<usize> {
        let at = self.at?;
        let left = self.buffer.len().checked_sub(at);
        if left.is_some_and(|left| count <= left) {
            return Some(at);
        }
        self.flush();
        self.at
    }

    // Writes out what is there, and the next byte goes to the buffer's start.
    pub fn flush(&mut self) {
        if let Some(at) = self.at {
            self.at = streams::write_first(self.rt, &self.buffer, at)
                .ok()
                .map(|()| 0);
        }
    }
}
