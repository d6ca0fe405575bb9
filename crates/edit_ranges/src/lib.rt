//! What a replica has, told by ranges of names, and the edits that another replica lacks by what it told. Two replicas that were apart
//! send each other their summaries, and then only what the other lacks: both have the join of their graphs then.
#![tactic(auto)]

mod between;
mod fact;
mod facts;
mod fault;
mod laws;
mod making;
mod name_range;
mod ranging;
mod reading;
mod sending;
mod summary;
mod telling;
mod told;
mod writing;

pub use fault::{RangeFault, SummaryFault};
pub use laws::{
    a_graph_has_one_summary, both_have_the_join, lacking_is_enough, nothing_is_invented,
    nothing_is_sent_in_vain, summary_texts_are_exact,
};
pub use making::summary_of;
pub use name_range::NameRange;
pub use reading::read_summary;
pub use sending::lacking;
pub use summary::Summary;
pub use text_parts::NoMemory;
pub use told::Told;
