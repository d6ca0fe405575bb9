//! The rules taken node by node: the state between two nodes. An open vertex keeps what each of its positions gave; from that come what is
//! demanded at the next position and, after the last, what marking adds to its node. Marking and plain typing stand on it.
#![tactic(auto)]

mod closing;
mod frame;
mod laws;
mod opening;
mod view;

pub use closing::{close, close_literal};
pub use frame::{Closed, Frame, Given, GivenRow, OpenVertex};
pub use laws::taking_all_nodes_marks_the_tree;
pub use opening::{demand_at, demand_next, fill, fresh, nothing};
pub use text_parts::NoMemory;
