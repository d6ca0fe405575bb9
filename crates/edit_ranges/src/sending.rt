ghost use Rattle.std.specs.Prelude.{◌≡◌, IfOk};
ghost use Rattle.edit_ranges.specs.Lacking.{lacking};

use crate::summary::Summary;
use crate::told::told_by;
use grove_edits::{Edit, EditList};
use std::alloc::Global;
use text_parts::NoMemory;

/// The edits that a replica lacks by what it told, in the order in which they stand: insertions of edges whose names it does not have, and
/// deletions of edges that are not deleted there.
pub fn lacking(alloc: Global, edits: &[Edit], other: &Summary) -> Result<EditList, NoMemory>
    ensures { IfOk result (λ list. list ≡ lacking other.now edits.now) }
{
    let mut list = EditList::new(alloc);
    for edit in edits {
        if !other.tells(told_by(edit.kind()), edit.name()) {
            list.push(*edit)?;
        }
    }
    Ok(list)
}
