// What stands behind the sections of a packet: the end of CDPParser::parse in the Rust.
#![tactic(auto)]

mod closing;

pub use closing::test_closing;
