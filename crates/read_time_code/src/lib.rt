// The time code section of a packet: a block of CDPParser::parse in the Rust.
#![tactic(auto)]

mod time_code;

pub use time_code::TimeCodeSection;
