//! A list that grows at its end. Its model is the list of its items, whatever they are. Sessions, pieces of texts, equations, trees,
//! edges and journals stand in such lists.
#![tactic(auto)]

mod list_of;

pub use list_of::ListOf;
