//! What the lines of every text format are made of: decimal numbers with one spelling each, short words, and parts that a byte
//! separates. A number's text is what `{}` writes of it. Names, constructors and edit lines stand on this crate.
#![tactic(auto)]

mod no_memory;
mod number;
mod separated;
mod short;

pub use no_memory::NoMemory;
pub use number::{put_number, read_number, take_number, write_number};
pub use separated::{split_at_first, split_at_next};
pub use short::write_short;
