use crate::edit_run::EditRun;

/// A run of edits with its place among the runs of its list, counted from 1: the command of a machine that takes runs.
#[derive(Drop)]
pub struct Piece {
    pub place: u64,
    pub edits: EditRun,
}
