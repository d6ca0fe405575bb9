//! Types by number: each type stands once in a table, keyed by the numbers of its parts, so that two numbers of one table are
//! equal exactly where their types are. Contracts see a table as the list of its types, each a finite tree, and a type's number as
//! its index there. Contexts, marks and everything above hold types as such numbers.
#![tactic(auto)]

mod consistency;
mod former;
mod heads;
mod landmarks;
mod laws;
mod meeting;
mod node;
mod relations;
mod table;
mod type_id;
mod type_printer;

pub use former::Former;
pub use laws::{
    consistency_is_not_transitive, consistency_is_reflexive, consistency_is_symmetric,
    meet_is_a_semilattice, meet_is_greatest_below_both, meet_is_where_consistent,
    precision_is_an_order,
};
pub use table::TypeTable;
pub use text_parts::NoMemory;
pub use type_id::TypeId;
pub use type_printer::TypePrinter;
