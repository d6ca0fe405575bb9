ghost use Rattle.std.specs.Prelude.{◌≡◌, IfOk, OnOk, OnErr};
ghost use Rattle.grove_editor.specs.Acted.{HasDone};
ghost use Rattle.grove_editor.specs.Deeds.{by_others};

use crate::deed::Deed;
use crate::replica_calls::take;
use grove_edits::{EditList, Vertex};
use grove_undo::change_in;
use replica_core::Replica;
use std::alloc::Global;
use text_parts::NoMemory;

/// Takes the edits of an author's action, and puts what they change behind the deeds. It answers the vertices that marking judges
/// otherwise then.
pub(crate) fn do_deed(
    alloc: Global,
    replica: &mut Replica,
    deeds: &mut Vec<Deed>,
    author: u32,
    edits: &EditList,
) -> Result<Vec<Vertex>, NoMemory>
    ensures done { IfOk result (λ changed. HasDone author edits.now replica.old replica.new deeds.old.items deeds.new.items changed.items) }
    ensures same_graph { OnErr result (replica.new ≡ replica.old) }
    ensures same_deeds { OnErr result (deeds.new.items ≡ deeds.old.items) }
{
    let change = change_in(alloc, replica.graph(), edits.as_slice())?;
    deeds.reserve(1)?;
    let changed = take(replica, edits)?;
    deeds.push_reserved(Deed { author, change });
    Ok(changed)
}

/// Leaves the deeds of other authors.
pub(crate) fn forget(deeds: &mut Vec<Deed>, author: u32)
    ensures { deeds.new.items ≡ by_others author deeds.old.items }
{
    deeds.retain(|deed| deed.author != author);
}
