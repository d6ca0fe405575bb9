//! What is written of a session: the journals of its blocks, and what every replica shows. Its definitions say which journals
//! are legal, what a replica has taken at a point, and what the report of a session and its journals is.
#![tactic(auto)]

mod block_journal;
mod entry_writing;
mod journal_list;
mod laws;
mod report_writing;
mod summary;
mod summary_writing;

pub use block_journal::BlockJournal;
pub use entry_writing::append_entry;
pub use journal_list::JournalList;
pub use laws::{
    a_journal_follows_from_its_calls, cuts_do_not_matter, one_report, one_summary,
    same_edits_same_section,
};
pub use report_writing::{append_block, append_replica_heading, append_show_heading};
pub use summary::Summary;
pub use summary_writing::summary_text;
pub use text_parts::NoMemory;
