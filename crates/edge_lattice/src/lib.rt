//! The states of an edge: absent, then live, then deleted. A state only rises, so edits that raise it commute.
//! Graphs and stores of graphs stand on this crate.
#![tactic(auto)]

mod state;

pub use state::{State, join, join_is_a_semilattice, leq};
