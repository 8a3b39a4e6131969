//! Bare streams of H.261: coded pictures one after the other, each ended by the start code of the next. A reader gives the
//! pictures of a source one by one, and a writer joins the strict texts of pictures.
#![tactic(auto)]

mod front;
mod laws;
mod reader;
mod tool_end;
mod writer;

pub use front::{Front, read_front};
pub use laws::{bare_stream_is_read_back, one_bare_stream, pictures_one_by_one};
pub use reader::{Bare, BareEnd};
pub use tool_end::{ToolEnd, ToolStop};
pub use writer::TextWriter;

#[cfg(test)]
mod tests;
