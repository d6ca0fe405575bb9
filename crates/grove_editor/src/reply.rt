use grove_edits::Answer;
use grove_undo::UndoFault;

/// What the last call that takes edits, acts, undoes or redoes came to.
#[derive(Clone, Copy, Debug, PartialEq, Eq)]
pub enum Reply {
    /// There was no such call yet.
    Unasked,
    /// Edits were taken, or an action was made or refused.
    Answered(Answer),
    /// An action was undone by so many edits.
    Undone { edits: u64 },
    /// What was undone was done again by so many edits.
    Redone { edits: u64 },
    /// The author has no action to undo, or none to do again.
    NothingToTurn,
    /// An action is not undone, or not done again.
    NotTurned(UndoFault),
}
