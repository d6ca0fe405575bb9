use crate::block_journal::BlockJournal;
use list_of::ListOf;

/// Journals in order.
pub type JournalList<M> = ListOf<BlockJournal<M>>;
