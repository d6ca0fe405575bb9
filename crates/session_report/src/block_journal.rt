use shared_replica::{Journal, Machine};

/// The journal of one replica in one block, both counted from 1.
#[derive(Drop)]
pub struct BlockJournal<M: Machine> {
    pub block: u64,
    pub replica: u64,
    pub journal: Journal<M>,
}
