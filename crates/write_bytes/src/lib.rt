// A packet's bytes, over plain values: what writer.rs of the Rust does in writing.
#![tactic(auto)]

mod packet_writing;

pub use packet_writing::write_packet;
