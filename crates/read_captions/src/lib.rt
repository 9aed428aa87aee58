// The caption section of a packet: a block of CDPParser::parse in the Rust.
#![tactic(auto)]

mod captions;

pub use captions::test_captions;
