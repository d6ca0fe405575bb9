ghost use Rattle.std.specs.Prelude.{◌≡◌};
ghost use Rattle.grove_edits.specs.Graph.{state_of};

use edge_lattice::State;
use grove_edits::EditKind;

/// What an edit did to the state of its edge.
#[derive(Clone, Copy, Debug, PartialEq, Eq)]
pub enum Change {
    /// The state already was at least what the edit asks.
    Same,
    /// The state rose from `old`.
    Raised { old: State },
}

/// What an edit asks its edge to be at least.
pub fn asked_by(kind: EditKind) -> State
    ensures { result ≡ state_of kind }
{
    match kind {
        EditKind::Insert => State::Live,
        EditKind::Delete => State::Deleted,
    }
}
