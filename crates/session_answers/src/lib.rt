//! Runs a session on replicas: its report or its summary, and the journals of its blocks. The journals are legal for the session,
//! and the report or the summary is the one of the session and these journals.
#![tactic(auto)]

mod block;
mod boards;
mod counting;
mod laws;
mod opened;
mod ran;
mod replicas;
mod running;
mod showing;
mod summarizing;

pub use laws::{
    one_summary_of_each_size, what_is_raised_is_deleted, without_meetings_there_is_one_course,
};
pub use ran::{Ran, run_session};
pub use summarizing::summarize_session;
pub use text_parts::NoMemory;
