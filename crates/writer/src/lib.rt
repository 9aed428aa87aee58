// The packet writer: writer.rs of the Rust.
#![tactic(auto)]

mod writer;

pub use writer::{CDPWriter, CDPWriterSet};
