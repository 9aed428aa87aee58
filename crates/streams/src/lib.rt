// Standard input and standard output. Where one of them fails, one line on standard error says so, and the caller gets
// the error, to print nothing more.
#![tactic(auto)]

mod input;
mod output;

pub use input::{Unread, read_all, read_part};
pub use output::{write, write_first, write_line};
