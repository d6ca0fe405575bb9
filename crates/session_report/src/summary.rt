use grove_answers::Counts;

/// What a summary tells of a session: how many loads it has, what the first replica's graph has at its end, and whether all replicas
/// print alike then.
#[derive(Clone, Copy, Debug, PartialEq, Eq)]
pub struct Summary {
    pub loads: u64,
    pub live: u64,
    pub deleted: u64,
    pub counts: Counts,
    pub equal: bool,
}
