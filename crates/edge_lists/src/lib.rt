//! Lists of edges by number, one for each vertex by its number, each in an order: edges alone, or by position first. Its model is the
//! list of the numbers at each vertex, and how many places each list has. It is for the children and the parents of a live graph.
#![tactic(auto)]

mod block;
mod blocks;
mod edge_lists;
mod laws;
mod lent_numbers;
mod list_order;
mod listed;
mod places;

pub use edge_lists::EdgeLists;
pub use laws::{listed_edges_stay, lists_by_edge_are_in_edge_order};
pub use lent_numbers::LentNumbers;
pub use list_order::{ByEdge, ByPosition, ListOrder};
pub use text_parts::NoMemory;
