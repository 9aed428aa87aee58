// Whether a packet can be written but for its services, and how long it is without them: what writer.rs of the Rust tests
// before it writes.
#![tactic(auto)]

mod checks;

pub use checks::{WriteTested, others_writable};
