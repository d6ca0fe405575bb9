//! Live graphs that are joined: the graph of some edits, edits joined to a graph, and a graph merged into another, with the laws of merging.
//! Where memory runs out, a graph is as it was. What undoes stands on this crate, and no command does.
#![tactic(auto)]

mod laws;
mod merging;
mod raising;

pub use laws::{
    an_edge_with_a_state_has_room, graphs_of_edits_are_well_formed, merging_is_a_join,
    raising_makes_the_graph,
};
pub use merging::{join_edits, merge};
pub use raising::graph_of;
pub use text_parts::NoMemory;
