//! The text of `undo`. A session at one replica is run in the order of its text, on one thread, and then an author's last action that was not
//! refused is undone. Programs that undo in sessions stand on this crate.
#![tactic(auto)]

mod course;
mod fit;
mod taking;
mod text;
mod writing;

pub use fit::is_fit;
pub use text::undo_text;
pub use text_parts::NoMemory;
