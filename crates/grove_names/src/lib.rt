//! Names of vertices and edges: an author's number and the author's counter, so that two authors never make the same name.
//! A name's text is both numbers with a dot between them, as `3.17`, and each name has one text.
#![tactic(auto)]

mod fault;
mod name;
mod text;

pub use fault::NameFault;
pub use name::{Name, names_are_ordered};
pub use text::{name_has_one_text, read_name, take_name, write_name};
pub use text_parts::NoMemory;
