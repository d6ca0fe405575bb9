//! What a vertex may be and where its children stand: identifiers, sorts, constructors and positions, with their texts and their orders.
//! The table of constructors and positions is the one definition that every other crate cites.
#![tactic(auto)]

mod ctor;
mod ident;
mod laws;
mod plain;
mod position;
mod read;
mod sort;
mod spelled;
mod table;
mod version;
mod write;

pub use ctor::Ctor;
pub use ident::{Ident, IdentFault};
pub use laws::{
    constructors_are_ordered, constructors_are_their_texts, identifiers_are_ordered,
    plain_constructors_are_their_constructors, positions_are_ordered, positions_are_their_words,
    rows_are_in_order,
};
pub use plain::{Plain, all_plain};
pub use position::Position;
pub use read::{read_ctor, read_ident, read_position, read_spelled};
pub use sort::Sort;
pub use spelled::{SpelledCtor, Spelling};
pub use table::{
    WIDEST, first_position_of_sort, place_at, position_at, position_count, position_sort, sort_of,
};
pub use text_parts::NoMemory;
pub use version::{Version, longest_identifier};
pub use write::{keyword, position_word, write_ctor, write_ident, write_position, write_sort};
