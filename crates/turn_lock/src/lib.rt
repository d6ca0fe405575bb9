//! A turn: one state, which threads take one at a time and give back with entries added to the list that it stores. Contracts see
//! of a seat which entries its turns added, which the seats joined to it added, and how far the list had come when it last
//! looked. Whatever the threads do, there is one list: each seat has seen a beginning of it, and at the end each entry is known
//! to be of one seat.
//!
//! Not promised: who has the next turn, that a waiter ever has one, and how long anything takes.
#![tactic(auto)]

mod kept;
mod known;
mod no_memory_with;
mod plays;
mod seat;
mod steps;
mod turn;

pub use kept::Kept;
pub use no_memory_with::NoMemoryWith;
pub use seat::TurnSeat;
pub use turn::Turn;
