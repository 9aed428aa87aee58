// Bits that are put together.
ghost use Rattle.std.specs.Prelude.{◌≡◌, ◌≤◌};
ghost use Rattle.basis.specs.Mask as Mask;

// The mask where the flag is on, else no bit. The second clause follows from the first; callers' sums fit by it.
pub fn flag(on: bool, mask: u8) -> u8
    ensures value { result ≡ Mask.flag on mask }
    ensures upper_bound { result ≤ mask }
{
    if on { mask } else { 0 }
}
