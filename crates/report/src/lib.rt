// What the programs that are compared with the Rust share.
#![tactic(auto)]

mod digest;
mod lent;
mod recipe;

pub use digest::{all_fed, entry_fed, feed, flag_fed, list_fed, two_fed};
pub use lent::fill;
pub use recipe::named;
