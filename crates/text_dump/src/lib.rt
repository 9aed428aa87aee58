// What is printed of a packet: one text, put into a lent buffer.
#![tactic(auto)]

mod captions;
mod dump;
mod lines;
mod list;

pub use dump::Dump;
