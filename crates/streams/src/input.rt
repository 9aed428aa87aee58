// Standard input.
ghost use Rattle.io.specs.Counts.{IsPrefixLen};
ghost use Rattle.std.specs.Prelude.{◌≡◌, MatchResult};

use std::io;
use std::io::Read;

// A read that failed, and how many bytes were read before it: they stand at the buffer's start.
#[derive(Clone, Copy)]
pub struct Unread {
    pub count: usize,
    pub error: io::Error,
}

// So `?` hands the error on where the count is not asked for.
impl From<Unread> for io::Error {
    ghost from_gives = { λ unread error. error ≡ unread.error };

    fn from(unread: Unread) -> Self {
        unread.error
    }
}

// Reads until the buffer is full, the input ends or a read fails; a pipe hands out its bytes in parts. How many there are
// is given, beside a failure too: they stand at the buffer's start.
pub fn read_all(rt: &(impl io::Input + Eprint), buf: &mut [u8]) -> Result<usize, Unread>
    ensures { MatchResult result (λ count. IsPrefixLen count buf.new) (λ unread. IsPrefixLen unread.count buf.new) }
{
    let mut count = 0;
    // No `for`: how much is read at once is the system's to say.
    while count < buf.len() {
        let got = read_part(rt, &mut buf[count..]).map_err(|error| Unread { count, error })?;
        if got == 0 {
            break;
        }
        count += got;
    }
    Ok(count)
}

// Reads once. Nothing is read where the input has ended, and where the read fails.
pub fn read_part(rt: &(impl io::Input + Eprint), buf: &mut [u8]) -> io::Result<usize>
    ensures { MatchResult result (λ count. IsPrefixLen count buf.new) (λ _. IsPrefixLen 0 buf.new) }
{
    rt.reader().read(buf).inspect_err(|_| {
        // Where this line cannot be written either, nothing is left to be told.
        let _ = rt.eprintln("standard input could not be read");
    })
}
