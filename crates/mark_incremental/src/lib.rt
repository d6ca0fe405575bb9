//! The marks of a live graph, kept from edit to edit.
#![tactic(auto)]

mod apart;
mod applying;
mod applying_all;
mod changed;
mod conflict;
mod frame;
mod given;
mod heads;
mod looking;
mod marks;
mod passing;
mod putting;
mod raising;
mod renewal;
mod replacing;
mod rooting;
mod settling;
mod short;
mod walks_up;
mod way;

pub use applying::{Applied, OldRecords, is_raised};
pub use marks::Marks;
pub use text_parts::NoMemory;
