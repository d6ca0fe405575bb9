//! Blocks of sessions: what a block asks of each replica, namely the lines of the authors who act on it and the pieces that are sent to
//! it, and how it is run: each author with lines and each `send` line in a thread of its own, on machines that the threads share.
#![tactic(auto)]

mod at_work;
mod author_lines;
mod block;
mod laws;
mod listing;
mod together;
mod worker;
mod working;

pub use at_work::authors_at_work;
pub use block::run_block;
pub use laws::{blocks_of_sessions_can_run, calls_differ_in_order_alone};
pub use text_parts::NoMemory;
