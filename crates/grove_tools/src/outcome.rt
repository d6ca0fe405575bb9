use edit_journal::MemoryDisk;
use edit_runs::Gathering;
use grove_calls::Ending;
use shared_replica::Journal;

/// How a call ended, and what it hands out beside what it wrote.
#[derive(Drop)]
pub struct ToolOutcome {
    pub status: Ending,
    /// The journal of the machine to which edits flowed, where the text of `relay` is written, whole or in part.
    pub relayed: Option<Journal<Gathering>>,
    /// The disk with the log in which the edits are kept, where the text of `keep` is written, whole or in part.
    pub kept: Option<MemoryDisk>,
}

/// What forms hand out.
#[derive(Drop)]
pub(crate) struct Handed {
    pub(crate) relayed: Option<Journal<Gathering>>,
    pub(crate) kept: Option<MemoryDisk>,
}
