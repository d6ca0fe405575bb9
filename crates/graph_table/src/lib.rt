//! A whole graph by numbers: a table of edits that ascend, whose vertices each tell their live edges by their indices. It is made once
//! and not edited. What shows and checks whole graphs stands on it.
#![tactic(auto)]

mod around;
mod following;
mod gathering;
mod graph_edge;
mod graph_table;
mod link;
mod named_vertex;
mod narrow_parents;
mod ordering;
mod parents;

pub use graph_edge::GraphEdge;
pub use graph_table::GraphTable;
pub use parents::Parents;
pub use text_parts::NoMemory;
