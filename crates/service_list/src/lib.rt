// The service list and its section: the second half of svc.rs of the Rust.
#![tactic(auto)]

mod list;
mod section;
mod section_writing;

pub use list::{MaybeServiceInfo, ServiceInfo, ServiceInfoAdded};
pub use service_entry::{DigitalServiceEntry, FieldOrService, ServiceEntry};
