ghost use Rattle.std.specs.Prelude.{◌≡◌, ◌<◌, IfOk, IfErr, IfSome, IfNone};
ghost use Rattle.grove_undo.specs.Change.{IsOfEdits};
ghost use Rattle.grove_edits.specs.Graph.{graph};
ghost use Rattle.replica_core.specs.Content.{Content};
ghost use Rattle.grove_editor.specs.Deeds.{IsLastBy, HasNoneBy};
ghost use Rattle.grove_editor.specs.Turned.{IsUndoneBy, IsNotUndone};

use crate::deed::Deed;
use grove_edits::EditList;
use grove_undo::{Change, UndoFault, change_in, undo};
use replica_core::Replica;
use std::alloc::Global;

/// The edits by an author that undo a change in the graph of a replica, and what they change in their turn.
pub(crate) fn undoing_of(
    alloc: Global,
    replica: &Replica,
    author: u32,
    change: &Change,
) -> Result<(EditList, Change), UndoFault>
    requires author { 0 < author }
    requires change { IsOfEdits change.now }
    ensures undone { IfOk result (λ undoing. IsUndoneBy (graph replica.now.edits) author change.now undoing.0 undoing.1) }
    ensures refused { IfErr result (IsNotUndone (graph replica.now.edits) author change.now) }
{
    let graph = replica.graph();
    match undo(alloc, graph, author, change) {
        Ok(edits) => {
            let back = change_in(alloc, graph, edits.as_slice())?;
            Ok((edits, back))
        }
        Err(fault) => Err(fault),
    }
}

/// The index of an author's last deed.
pub(crate) fn last_by(deeds: &[Deed], author: u32) -> Option<usize>
    ensures last { IfSome result (IsLastBy author deeds.now) }
    ensures none { IfNone result (HasNoneBy author deeds.now) }
{
    let mut left = deeds.len();
    while left > 0 {
        left -= 1;
        if deeds[left].author == author {
            return Some(left);
        }
    }
    None
}
