//! The text of edits: one line for each, read and written exactly, with the first fault of a line that is none.
//! A line is a sign, the edge's name, its source, its position and its target, parted by single spaces.
//! A text may begin with a line that tells its version.
#![tactic(auto)]

mod laws;
mod line;
mod line_fault;
mod text_fault;
mod version;
mod write;

pub use laws::{lines_are_exact, texts_are_exact, whole_texts_are_exact};
pub use line::{read_line, read_spelled_line};
pub use line_fault::LineFault;
pub use text_fault::TextFault;
pub use text_parts::NoMemory;
pub use version::{header_lines, split_version, write_version};
pub use write::{write_edits, write_line};
