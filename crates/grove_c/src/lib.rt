//! Grove for C, and for whatever calls C. An editor is held by its address; each call that C makes is an export that lends it to a function
//! of the editor, tells by a number how that ended, and copies texts to the room of the caller. `library/grove.h` describes the calls.
#![tactic(auto)]

mod acting;
mod bad_line;
mod catching_up;
mod code;
mod edits;
mod held;
mod instance;
mod opening;
mod room;
mod seed;
mod text_kind;
mod texts;

pub use bad_line::BadLine;
pub use held::Held;
