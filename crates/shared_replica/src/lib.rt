//! A machine with the journal of the commands that it took: on one thread as a `Solo`, or as a `Shared`, which threads call one
//! at a time. Contracts see the journal as one list that the machine's steps make, from the machine that was handed in to the
//! one that is given back. A pass has seen a beginning of it, and knows which calls were its own.
//!
//! Not promised: who is served first, that a waiter is served, how long anything takes, and the order of calls whose callers
//! told each other nothing.
#![tactic(auto)]

mod journal;
mod kept;
mod laws;
mod machine;
mod pass;
mod shared;
mod solo;

pub use journal::{Entry, Journal};
pub use laws::{an_entry_is_the_step_at_its_place, turns_extend_what_was_seen};
pub use machine::Machine;
pub use pass::Pass;
pub use shared::Shared;
pub use solo::Solo;
pub use text_parts::NoMemory;
pub use turn_lock::NoMemoryWith;
