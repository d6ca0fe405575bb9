//! One live replica: a graph that takes edits and plans and applies actions, one after the other, keeps its marks from edit to edit, and
//! answers its texts in between. Contracts see its canonical list of edits, and the edges that were there as the block opened; the marks
//! follow from the edits. It is the machine that sessions run.
#![tactic(auto)]

mod laws;
mod machine;
mod planning;
mod replica;
mod texts;

pub use laws::{
    a_journal_takes_its_edits, an_authors_step_is_the_plan, an_edit_costs_by_its_size,
    edits_that_are_taken_are_joined, replicas_converge, what_holds_of_a_replica_stays,
    what_is_kept_follows_from_the_edits,
};
pub use planning::{due, planned};
pub use replica::Replica;
pub use text_parts::NoMemory;
