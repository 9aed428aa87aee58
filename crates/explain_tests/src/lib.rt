// The numbered tests of reading: the rule that each belongs to, and the values that those of one byte take.
#![tactic(auto)]

mod rule;
mod taken;

pub use rule::rule_of;
pub use taken::takes;
