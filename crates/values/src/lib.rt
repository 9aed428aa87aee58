// The values of a caption distribution packet: what lib.rs of the Rust has, without answers and time codes.
#![tactic(auto)]

mod checksum;
mod flags;
mod framerate;
mod layout;
mod sequence;

pub use checksum::checksum_byte;
pub use flags::Flags;
pub use framerate::Framerate;
pub use layout::Packet;
pub use sequence::{sequence_bytes, sequence_count};
