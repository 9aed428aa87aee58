// Why a packet is refused: the test that it fails first, and what that test takes.
#![tactic(auto)]

mod rule;
mod why;

pub use rule::reason_rule;
pub use why::{FailedByte, FailedPair, FailedSize, Reason, Why};
