// The first seven bytes of a packet: the first block of CDPParser::parse in the Rust.
#![tactic(auto)]

mod header;

pub use header::Header;
