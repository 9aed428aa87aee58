// An entry of the service section: the first half of svc.rs of the Rust.
#![tactic(auto)]

mod entry;
mod entry_writing;
mod service;

pub use entry::ServiceEntry;
pub use service::{DigitalServiceEntry, FieldOrService};
