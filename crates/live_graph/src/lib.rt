//! A live graph: the state of each edge, with the live edges from each vertex and those to it. Each vertex and each edge stands in it once, and
//! else by its number. Its model is the list of its edges, each with its state, in the order of their numbers.
#![tactic(auto)]

mod by_name;
mod edges;
mod few_edges;
mod greatest;
mod live_graph;
mod live_lists;
mod neighbours;
mod parent_count;
mod places;
mod uses;
mod vertices;
mod walk_up;
mod whole;

pub use edges::{Edges, LiveEdge};
pub use few_edges::FewEdges;
pub use graph_words::{Change, Named};
pub use live_graph::LiveGraph;
pub use text_parts::NoMemory;
