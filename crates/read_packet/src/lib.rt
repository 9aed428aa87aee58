// A packet, tested and taken apart: the body of CDPParser::parse in the Rust.
#![tactic(auto)]

mod checked;

pub use checked::Checked;
