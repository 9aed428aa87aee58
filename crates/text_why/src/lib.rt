// What is printed of a packet: why it is refused, in one text that is put into a lent buffer.
#![tactic(auto)]

mod lines;
mod whole;

pub use whole::WhyText;
