//! Groves as values: the grove of a graph by numbers, with all its trees at once, its edges, its marking, and its print text. No command
//! needs them, since each lists, marks and prints one tree after the other; what takes a whole grove stands on this crate.
#![tactic(auto)]

mod decomposition;
mod edge_list;
mod erasing;
mod listing;
mod marked_grove;
mod marked_lines;
mod marked_tree_list;
mod marking_groves;
mod printing;

pub use decomposition::decompose;
pub use edge_list::EdgeList;
pub use erasing::erase;
pub use listing::edges;
pub use marked_grove::MarkedGrove;
pub use marked_lines::print_marked_lines;
pub use marked_tree_list::MarkedTreeList;
pub use marking_groves::mark_grove;
pub use printing::print_grove;
pub use text_parts::NoMemory;
