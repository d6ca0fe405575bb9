ghost use Rattle.std.specs.Prelude.{◌≡◌};
ghost use Rattle.grove_editor.specs.Turn.{turn_reply};

use crate::reply::Reply;

/// Whether an action is undone, or what undid one is undone in its turn.
#[derive(Clone, Copy, Debug, PartialEq, Eq)]
pub(crate) enum Turn {
    Undo,
    Redo,
}

impl Turn {
    /// The reply where it took so many edits.
    pub(crate) fn reply(self, edits: u64) -> Reply
        ensures { result ≡ turn_reply self edits }
    {
        match self {
            Turn::Undo => Reply::Undone { edits },
            Turn::Redo => Reply::Redone { edits },
        }
    }
}
