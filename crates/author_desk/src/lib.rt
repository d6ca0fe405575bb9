//! An author at work on a shared machine: the lines of one author are entered in turns, each line once and in order, and a gate says
//! when each line starts. A cut of edges that the graph opened with is raised on a board as soon as it starts, takes no turn of
//! its own, and is entered in the turn of the author's next line. Contracts see what the author's pass entered and what its seat
//! at the board raised.
//!
//! Not promised: that a word is raised before the next line starts, and when a turn comes.
#![tactic(auto)]

mod asked;
mod cuts;
mod entering;
mod laws;
mod lines;
mod opening;
mod starting;

pub use asked::Asked;
pub use cuts::Cuts;
pub use laws::{each_turn_stands_together, turns_have_each_line_once};
pub use lines::run_lines;
pub use text_parts::NoMemory;
