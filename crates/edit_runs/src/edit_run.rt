ghost use Rattle.std.specs.Prelude.{◌≡◌, ◌≤◌, length, slice_range, IfOk};

use grove_edits::Edit;
use shared_edits::SharedEdits;
use std::marker::Model;
use text_parts::NoMemory;

/// Some edits of a list that others share, next to each other. Contracts see the edits.
#[derive(Drop)]
pub struct EditRun {
    list: SharedEdits,
    from: usize,
    to: usize,
}

impl Model for EditRun {
    ghost use Rattle.std.specs.Prelude.{◌≤◌, List, length, slice_range};
    ghost use Rattle.grove_edits.specs.declared.edit.Edit.{Edit};

    ghost Value = { List Edit };

    ghost view = { λ run. slice_range run.list run.from run.to };

    ghost invariant = { λ run. (run.from ≤ run.to) × (run.to ≤ length run.list) };
}

impl EditRun {
    /// The edits of a list from an index up to another one.
    pub fn of(list: &SharedEdits, from: usize, to: usize) -> Result<EditRun, NoMemory>
        requires order { from ≤ to }
        requires within { to ≤ length list.now }
        ensures { IfOk result (λ run. run ≡ slice_range list.now from to) }
    {
        let list = list.share()?;
        Ok(EditRun { list, from, to })
    }

    /// The same edits, for one more who shares their list.
    pub fn share(&self) -> Result<EditRun, NoMemory>
        ensures { IfOk result (λ run. run ≡ self.now) }
    {
        EditRun::of(&self.list, self.from, self.to)
    }

    pub fn as_slice(&self) -> &[Edit]
        ensures { result.now ≡ self.now }
    {
        &self.list.as_slice()[self.from..self.to]
    }
}
