// What every layer rests on: answers, the tests and the checks that they come of, bits, and bytes in a lent buffer.
#![tactic(auto)]

mod answer;
mod bits;
mod buffer;
mod refusal;
mod test;

pub use answer::Answer;
pub use bits::flag;
pub use buffer::{byte_at, put};
pub use refusal::{Refusal, Refused};
pub use test::{ByteTest, PairTest, SizeTest, Test};
