// The time code of a caption distribution packet, which lib.rs of the Rust has beside the other values.
#![tactic(auto)]

mod time;

pub use time::{MaybeTimeCode, TimeCode};
