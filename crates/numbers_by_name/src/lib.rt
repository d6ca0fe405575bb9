//! Numbers, each under a name, in the order in which they were added. Its model is the list of the names, the greatest
//! first, each with its numbers. It is for what keeps a graph as lists of numbers, and finds the edges or the vertices with a name. Beside
//! it stands a table of guesses by name, for what is found by a name first.
#![tactic(auto)]

mod guesses;
mod lists;
mod numbers_by_name;
mod on_page;
mod page;
mod pages;

pub use guesses::Guesses;
pub use numbers_by_name::NumbersByName;
pub use text_parts::NoMemory;
