//! The lines of edits, read as they come in pieces that may be cut anywhere.
//! A stream gives the edits of the lines that each piece ends, and keeps the bytes behind the last LF for the next one. How a text is cut changes neither its edits nor its first bad line.
#![tactic(auto)]

mod edit_stream;
mod feed_fault;
mod finish_fault;
mod laws;
mod reading;

pub use edit_stream::EditStream;
pub use feed_fault::FeedFault;
pub use finish_fault::FinishFault;
pub use laws::{a_stream_reads_its_text, cuts_do_not_matter};
pub use text_parts::NoMemory;
