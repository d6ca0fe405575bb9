//! Lists of edits that several owners share, and the lists that cuts have deleted, of which equal ones are kept once. They are the
//! effects of the entries of journals.
#![tactic(auto)]

mod cut_effects;
mod shared_edits;

pub use cut_effects::CutEffects;
pub use shared_edits::SharedEdits;
pub use text_parts::NoMemory;
