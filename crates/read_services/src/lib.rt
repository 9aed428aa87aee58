// The service section of a packet, which the header has to agree with: a block of CDPParser::parse in the Rust.
#![tactic(auto)]

mod services;

pub use services::test_services;
