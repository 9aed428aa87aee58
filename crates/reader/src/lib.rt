// The packet reader: parser.rs of the Rust.
#![tactic(auto)]

mod hand_out;
mod list_made;
mod packet_read;
mod parser;
mod shown;

pub use packet_read::PacketRead;
pub use parser::{CDPParser, CDPParserRead};
