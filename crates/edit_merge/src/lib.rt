//! The canonical text of the edits that lines spell, made of the lines themselves. An edit has one line in a version, so of the lines of
//! one edge a line is copied from where it stands: that of a deletion, if there is one. Lines are sorted by the name of their edge, and
//! only where edges share a name are their lines read a second time, to sort them by their edits. `merge` stands on this crate.
#![tactic(auto)]

mod edit_line;
mod joined_names;
mod merge;
mod named_line;
mod naming;
mod naming_in_parts;
mod writing;

pub use merge::{merge_lines, merge_lines_in_parts};
pub use text_parts::NoMemory;
