ghost use Rattle.std.specs.Prelude.{◌≡◌, ◌≤◌, length};

use crate::edit_run::EditRun;
use crate::piece::Piece;
use live_relay::Item;
use shared_edits::SharedEdits;
use std::alloc::Global;
use text_parts::NoMemory;

/// Where a run stands in a list that is lent.
#[derive(Clone, Copy)]
pub struct Stretch<'t> {
    list: &'t SharedEdits,
    from: usize,
    to: usize,
    ghost in_order: { from ≤ to },
    ghost within: { to ≤ length list.now },
}

impl<'t> Stretch<'t> {
    ghost use Rattle.edit_runs.specs.Stretch.{edits_in};
    ghost use Rattle.std.specs.Prelude.{slice_range};

    /// The edits of a list from an index up to another one.
    pub fn of(list: &'t SharedEdits, from: usize, to: usize) -> Stretch<'t>
        requires order { from ≤ to }
        requires within { to ≤ length list.now }
        ensures { edits_in result ≡ slice_range list.now from to }
    {
        Stretch { list, from, to }
    }
}

impl<'t> Item<Piece> for Stretch<'t> {
    ghost use Rattle.edit_runs.specs.Stretch.{piece_of};

    ghost command_of = { piece_of };

    fn command(self, _alloc: Global, place: u64) -> Result<Piece, NoMemory> {
        let edits = EditRun::of(self.list, self.from, self.to)?;
        Ok(Piece { place, edits })
    }
}
