//! Typing without marks: whether a tree is typed, by the rules that put no mark. The check of whole programs stands on it.
#![tactic(auto)]

mod checking;
mod laws;
mod walking;

pub use checking::is_typed;
pub use laws::{a_type_is_the_one_of_the_marking, typed_trees_have_no_marks};
pub use text_parts::NoMemory;
