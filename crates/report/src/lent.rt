// A buffer as it is lent.
ghost use Rattle.std.specs.Prelude.{◌≡◌, length, replicate};

// What every byte of a lent buffer holds before the call, so that it shows what was written.
const UNTOUCHED: u8 = 0xA5;

pub fn fill(lent: &mut [u8])
    ensures { lent.new ≡ replicate (length lent.old) 0xA5 }
{
    lent.fill(UNTOUCHED);
}
