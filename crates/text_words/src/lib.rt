// What is said of each test that a packet fails.
#![tactic(auto)]

mod words;

pub use words::refused;
