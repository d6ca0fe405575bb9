//! A board: one word for each edge of an opening graph, with a state that only rises. Any thread raises and reads the words
//! through a seat of its own, and waits for nobody. Contracts see of a seat what it has seen and which slots it raised. The seat
//! that has all the parts closes the board, and its marks are then all that was raised.
//!
//! Not promised: which of two raises of one slot came first.
#![tactic(auto)]

mod board;
mod known;
mod plays;
mod seat;
mod words;

pub use board::Board;
pub use seat::BoardSeat;
pub use text_parts::NoMemory;
