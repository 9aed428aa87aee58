// The entries of a service section, tested and read: what the second half of svc.rs of the Rust reads, without the list's
// flags.
#![tactic(auto)]

mod entries;
mod section_tests;

pub use entries::{fillers, read_entries};
pub use section_tests::test_section;
