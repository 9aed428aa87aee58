// Values in digits, each behind a word that names it.
ghost use Rattle.std.specs.Prelude.{◌++◌, ◌≡◌, ◌<◌};
ghost use Rattle.text.specs.Digits.{decimal_text, digit_of, flag_text, hex_text, two_digits};
ghost use Rattle.text.specs.Room.{PutInRoom};

use crate::room::both;

// A number in decimal.
pub fn number(out: &mut [u8], at: usize, name: &[u8], n: u64) -> usize
    ensures { PutInRoom at (name.now ++ decimal_text n) out.old result out.new }
{
    let mut digits = [0u8; 20];
    let count = io::decimal(n, &mut digits);
    both(out, at, name, &digits[..count])
}

// The last two digits of a number, which are all of one below 100.
#[tactic(auto, unfolding(crate::specs::Digits::two_digits))]
pub fn two_digits(out: &mut [u8], at: usize, name: &[u8], n: u8) -> usize
    ensures { PutInRoom at (name.now ++ two_digits n) out.old result out.new }
{
    let digits = [digit(n / 10 % 10), digit(n % 10)];
    both(out, at, name, &digits)
}

// A byte in hexadecimal.
#[tactic(auto, unfolding(crate::specs::Digits::hex_text))]
pub fn hex(out: &mut [u8], at: usize, name: &[u8], byte: u8) -> usize
    ensures { PutInRoom at (name.now ++ hex_text byte) out.old result out.new }
{
    let digits = [digit(byte / 16), digit(byte % 16)];
    both(out, at, name, &digits)
}

// 1 or 0.
#[tactic(auto, unfolding(crate::specs::Digits::flag_text))]
pub fn flag(out: &mut [u8], at: usize, name: &[u8], on: bool) -> usize
    ensures { PutInRoom at (name.now ++ flag_text on) out.old result out.new }
{
    if on {
        both(out, at, name, b"1")
    } else {
        both(out, at, name, b"0")
    }
}

fn digit(value: u8) -> u8
    requires { value < 16 }
    ensures { result ≡ digit_of value }
{
    let digits = b"0123456789abcdef";
    let at = value as usize;
    digits[at]
}
