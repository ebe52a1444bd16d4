//! Lines read from a device in blocks. A line is handed out where it lies in its block; only one that crosses the end of a block,
//! or has no line feed, is carried over byte by byte.
#![tactic(auto)]

mod carry;
mod fault;
mod feed;
mod head;
mod line;
mod line_reader;

pub use fault::ReadFault;
pub use head::Head;
pub use line::Line;
pub use line_reader::LineReader;
