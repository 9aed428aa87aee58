// The test that a packet fails first: what the reader answers, and the place that it points at, leave one.
#![tactic(auto)]

mod find;
mod layout;

pub use find::test_of;
pub use layout::services_at;
