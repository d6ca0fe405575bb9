//! The way from edits that ascend to the text of `merge`, `show` and `check`: the graph by numbers, its trees one after
//! the other, each with its marking, and what is written of them. The commands stand on this crate.
#![tactic(auto)]

mod canonical;
mod check;
mod counting;
mod counts;
mod laws;
mod marks;
mod parted_report;
mod parts;
mod program;
mod report;
mod reporting;
mod show;
mod walk;

pub use canonical::append_canonical_text;
pub use check::{check_text, check_text_in_parts};
pub use counting::grove_counts;
pub use counts::Counts;
pub use laws::same_graphs_have_one_text;
pub use report::Report;
pub use reporting::report_graph;
pub use show::{print_text, print_text_in_parts};
pub use text_parts::NoMemory;
