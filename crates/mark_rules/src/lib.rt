//! The walk that marks a tree: it judges node by node and keeps the marked nodes, with each expression what is wanted of it, its type and
//! its mark, and with each type its type. What tests marks and prints them stands on this crate.
#![tactic(auto)]

mod marking_trees;
mod open_frames;
mod taking;

pub use marking::{MarkedNode, MarkedTree};
pub use marking_trees::mark_tree;
pub use open_frames::OpenFrames;
pub use text_parts::NoMemory;
