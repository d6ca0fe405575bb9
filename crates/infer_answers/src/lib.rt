//! The way from edits that ascend to the text of `infer`: for each tree of the graph whose head is a program or an expression, the types
//! that its holes for types must have, or the first equation of the tree that cannot hold with those before it. One tree at a time is kept.
#![tactic(auto)]

mod answer;
mod inferring;
mod tree_text;

pub use inferring::append_infer_text;
pub use text_parts::NoMemory;
