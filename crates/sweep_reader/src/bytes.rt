// The same byte again and again, put into a lent buffer that may be too short.
ghost use Rattle.std.specs.Prelude.{replicate};
ghost use Rattle.text.specs.Room.{PutInRoom};

// The same byte so many times.
pub fn repeat(out: &mut [u8], from: usize, byte: u8, count: u8) -> usize
    ensures { PutInRoom from (replicate count byte) out.old result out.new }
{
    let mut at = from;
    // A closure would have to change what is lent.
    for k in 0..count {
        at = text::byte(out, at, byte);
    }
    at
}
