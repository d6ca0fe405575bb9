ghost use Rattle.std.specs.Prelude.{◌≡◌, IfOk};
ghost use Rattle.edit_runs.specs.Runs.{AreRunsOf};

use crate::stretch::Stretch;
use live_relay::Items;
use shared_edits::SharedEdits;
use std::alloc::Global;
use text_parts::NoMemory;

/// How many edits a run has at most.
pub const MOST_EDITS: usize = 64;

/// Cuts a list into runs of as many edits as a run may have, but for the last one, which has the rest.
pub fn cut<'t>(alloc: Global, list: &'t SharedEdits) -> Result<Items<Stretch<'t>>, NoMemory>
    ensures { IfOk result (λ runs. AreRunsOf list.now runs) }
{
    let mut runs = Items::new(alloc);
    runs.reserve(list.len() / MOST_EDITS + 1)?;
    let mut from = 0;
    while from < list.len() {
        let to = from + (list.len() - from).min(MOST_EDITS);
        runs.push(Stretch::of(list, from, to))?;
        from = to;
    }
    Ok(runs)
}
