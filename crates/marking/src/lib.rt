//! What a marked tree is: with each expression what is wanted of it, its type and its mark, with each type its type. The laws say that
//! there is exactly one marking. What marks trees, tests them and prints them stands on this crate.
#![tactic(auto)]

mod added;
mod laws;
mod marked_node;
mod marked_tree;

pub use added::Added;
pub use laws::{
    each_expression_has_one_type, each_tree_has_one_marking, every_grove_has_one_marking,
    functions_mark_by_the_rows, marking_erases, trees_are_marked_as_by_hand,
};
pub use marked_node::MarkedNode;
pub use marked_tree::MarkedTree;
pub use text_parts::NoMemory;
