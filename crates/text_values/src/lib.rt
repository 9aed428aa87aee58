// What a test found in a packet, and what it takes there.
#![tactic(auto)]

mod bytes;
mod limits;
mod runs;

pub use bytes::found;
pub use limits::allowed;
