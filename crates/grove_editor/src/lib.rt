//! What an editor calls. One value takes edits as text in any pieces, makes the actions of authors and undoes them, and tells what the last
//! call answered, which edits it made and which marks it changed. Libraries for other languages stand on this crate.
#![tactic(auto)]

mod acting;
mod action_fault;
mod author_fault;
mod authors;
mod catching_up;
mod deed;
mod doing;
mod editor;
mod edits;
mod last_deed;
mod laws;
mod news;
mod reading;
mod records;
mod replica_calls;
mod reply;
mod reply_writing;
mod texts;
mod turn;
mod turning;
mod undoing;
mod vertex_fault;
mod vertex_reading;

pub use action_fault::ActionFault;
pub use author_fault::AuthorFault;
pub use deed::Deed;
pub use edit_ranges::{RangeFault, SummaryFault};
pub use editor::Editor;
pub use laws::{
    a_text_of_edits_is_read, an_action_is_in_a_block_of_its_own, who_caught_up_has_the_join,
};
pub use reading::read_edits;
pub use reply::Reply;
pub use text_parts::NoMemory;
pub use vertex_fault::VertexFault;
