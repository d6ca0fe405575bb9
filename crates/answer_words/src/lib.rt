//! The words of answers: what came of an action, and why it was refused. Journals write them behind the author's line, and an editor
//! shows them.
#![tactic(auto)]

mod answer_text;

pub use answer_text::write_answer;
pub use text_parts::NoMemory;
