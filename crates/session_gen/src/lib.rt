//! Generated sessions of any size.
#![tactic(auto)]

mod group;
mod laws;
mod loads;
mod session;

pub use laws::{generated_sessions_have_these_parts, one_generated_session};
pub use session::generate;
