ghost use Rattle.std.specs.Prelude.{◌≡◌, ◌≢◌, ◌<◌, IfOk, OnOk, OnErr};
ghost use Rattle.std.specs.List.{All};
ghost use Rattle.grove_undo.specs.declared.undo_fault.UndoFault.TheVariants.{NoMemory as no_memory};
ghost use Rattle.grove_editor.specs.Deeds.{IsKnown};
ghost use Rattle.grove_editor.specs.Turned.{HasTurned};

use crate::deed::Deed;
use crate::last_deed::{last_by, undoing_of};
use crate::replica_calls::take;
use grove_edits::{EditList, Vertex};
use grove_undo::UndoFault;
use replica_core::Replica;
use std::alloc::Global;
use text_parts::NoMemory;

/// What came of undoing an author's last deed of some.
#[derive(Drop)]
pub(crate) enum Turned {
    /// None of them is by the author.
    Nothing,
    Refused(UndoFault),
    /// These edits were taken, and marking judges these vertices otherwise.
    Made {
        edits: EditList,
        changed: Vec<Vertex>,
    },
}

/// Undoes an author's last deed of some on a replica, and puts what undid it among others.
pub(crate) fn turn_last(
    alloc: Global,
    replica: &mut Replica,
    deeds: &mut Vec<Deed>,
    others: &mut Vec<Deed>,
    author: u32,
) -> Result<Turned, NoMemory>
    requires author { 0 < author }
    requires known { All IsKnown deeds.old.items }
    ensures turned { IfOk result (HasTurned author replica.old replica.new deeds.old.items deeds.new.items others.old.items others.new.items) }
    ensures same_graph { OnErr result (replica.new ≡ replica.old) }
    ensures same_deeds { OnErr result (deeds.new.items ≡ deeds.old.items) }
    ensures same_others { OnErr result (others.new.items ≡ others.old.items) }
{
    let Some(index) = last_by(deeds, author) else {
        return Ok(Turned::Nothing);
    };
    match undoing_of(alloc, replica, author, &deeds[index].change) {
        Ok((edits, change)) => {
            others.reserve(1)?;
            let changed = take(replica, &edits)?;
            let _deed = deeds.remove(index);
            others.push_reserved(Deed { author, change });
            Ok(Turned::Made { edits, changed })
        }
        Err(fault) => refused(fault),
    }
}

// Want of memory is no refusal.
fn refused(fault: UndoFault) -> Result<Turned, NoMemory>
    ensures refused { IfOk result (λ turned. turned ≡ Turned.Refused fault) }
    ensures known { OnOk result (fault ≢ no_memory) }
{
    match fault {
        UndoFault::Touched { .. } | UndoFault::NamesSpent { .. } => Ok(Turned::Refused(fault)),
        UndoFault::NoMemory => Err(NoMemory),
    }
}
