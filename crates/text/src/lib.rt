// Text in a lent buffer. A piece is put from a place on, as much of it as there is room for, and the place behind it is
// given; a whole text is put only where all of it fits.
#![tactic(auto)]

mod answered;
mod digits;
mod room;
mod whole;

pub use answered::answer;
pub use digits::{flag, hex, number, two_digits};
pub use room::{byte, line, word};
pub use whole::put_whole;
