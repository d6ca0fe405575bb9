//! The print text of a live graph from the marks that are kept of its vertices: no expression is judged again. A vertex has what its record
//! says, and of every other node is wanted what the vertex above it demands there.
#![tactic(auto)]

mod added;
mod laws;
mod marking_trees;
mod parent;
mod printing;
mod taking;
mod wanted;

pub use laws::records_tell_the_marking;
pub use marking_trees::marked_by_records;
pub use printing::append_print_text;
pub use text_parts::NoMemory;
