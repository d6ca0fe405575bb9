//! Edits, each of which inserts or deletes one edge of a graph, and the graph that a list of edits makes.
//! An `Edit` is well formed by its type. Texts, stores and indexes stand on this crate.
//! Beside them the types of what authors do: places, actions, their faults and answers, and the commands of a replica.
#![tactic(auto)]

mod act_fault;
mod action;
mod actor;
mod answer;
mod bytes;
mod canonical;
mod command;
mod edge;
mod edit;
mod edit_list;
mod laws;
mod spelled;
mod vertex;

pub use act_fault::ActFault;
pub use action::{Action, Place};
pub use actor::Actor;
pub use answer::Answer;
pub use bytes::Bytes;
pub use command::Command;
pub use edge::{Edge, EdgeFault, check_edge};
pub use edit::{Edit, EditKind};
pub use edit_list::EditList;
pub use laws::{
    a_well_formed_edge_fits, an_edit_is_its_kind_and_edge, edges_are_ordered, edits_commute,
    graphs_join, one_canonical_list,
};
pub use spelled::{SpelledEdge, SpelledEdit, SpelledVertex};
pub use text_parts::NoMemory;
pub use vertex::{Vertex, compare_vertices, is_same_vertex};
