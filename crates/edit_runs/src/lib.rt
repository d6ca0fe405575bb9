//! Lists of edits cut into runs, and a machine that gathers the runs that it takes. A run shares the list that it was cut from, so a
//! journal of runs holds each edit once. What is gathered has one canonical text. `relay` stands on this crate.
#![tactic(auto)]

mod cutting;
mod edit_run;
mod gathering;
mod piece;
mod relaying;
mod stretch;
mod writing;

pub use cutting::{MOST_EDITS, cut};
pub use edit_run::EditRun;
pub use gathering::Gathering;
pub use piece::Piece;
pub use relaying::relay_in_runs;
pub use stretch::Stretch;
pub use text_parts::NoMemory;
