//! Sessions as text, in two versions: replicas, the authors who act on them, and what happens in which order. A session has one text,
//! and a text that is no session's has a first bad line, with one kind of fault.
#![tactic(auto)]

mod action_text;
mod author;
mod author_list;
mod ident_list;
mod item;
mod item_list;
mod laws;
mod line;
mod line_list;
mod parts;
mod phase;
mod reading;
mod script;
mod script_kind;
mod session;
mod statement;
mod statement_reading;
mod taking;

pub use action_text::{read_action, write_action};
pub use author::Declared;
pub use author_list::AuthorList;
pub use ident_list::IdentList;
pub use item::{Block, Item};
pub use item_list::ItemList;
pub use laws::{a_text_has_a_session_or_a_fault, lines_say_one_thing, texts_are_exact};
pub use line::{Line, SendLine};
pub use line_list::LineList;
pub use script::read_session;
pub use script_kind::{ScriptFault, ScriptKind};
pub use session::Session;
pub use statement::{SendText, Statement};
pub use text_parts::NoMemory;
