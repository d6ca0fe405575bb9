//! The print text of marked trees: a line for each node, below a heading for each list of trees. What shows programs stands on this crate.
#![tactic(auto)]

mod columns;
mod line;
mod marked_lines;
mod marks;
mod print;
mod section;

pub use columns::{append_edge, append_position, append_vertex, append_what};
pub use line::whole_or_nothing;
pub use marked_lines::{append_marked_lines_of, print_marked_lines_of};
pub use marks::{append_mode, append_type, mark_word, sort_of_node};
pub use print::{append_heading, append_tree, print_heading, print_tree};
pub use section::Section;
pub use text_parts::NoMemory;
