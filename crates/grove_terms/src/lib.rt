//! Trees of a graph, as lists of nodes in preorder, and groves of them. The definitions say which trees stand for the vertices of a
//! graph, and which grove is the graph's. What decomposes graphs, and marks and prints groves, stands on this crate.
#![tactic(auto)]

mod grove;
mod laws;
mod node;
mod tree;
mod tree_list;

pub use grove::Grove;
pub use laws::{
    a_list_is_one_tree, each_live_edge_stands_once, each_vertex_heads_one_tree,
    every_graph_has_one_grove, recomposing_gives_the_edges, trees_are_well_sorted,
};
pub use node::{LentEdge, LentNode, LentWhat, Node, Role, What};
pub use text_parts::NoMemory;
pub use tree::Tree;
pub use tree_list::TreeList;
