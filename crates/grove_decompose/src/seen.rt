ghost use Rattle.std.specs.Prelude.{◌≡◌, Some, true, slice_get, IfOk};
ghost use Rattle.grove_decompose.specs.Trees.{OnlyInner};

use crate::noted_numbers::NotedNumbers;
use crate::room::Room;
use graph_table::GraphTable;
use std::alloc::Global;
use std::marker::Model;
use text_parts::NoMemory;

/// Which vertices of a graph were listed in the tree of another one, by their numbers. It also keeps the lists by which its trees are
/// listed, from one tree to the next.
#[derive(Drop)]
pub struct Seen {
    pub(crate) noted: NotedNumbers,
    pub(crate) room: Room<usize, usize>,
}

impl Model for Seen {
    ghost use Rattle.std.specs.Prelude.{List, Bool};

    ghost Value = { List Bool };

    ghost view = { λ seen. seen.noted };
}

impl Seen {
    /// None of them.
    pub fn none_of(alloc: Global, table: &GraphTable) -> Result<Seen, NoMemory>
        ensures { IfOk result (OnlyInner table.now) }
    {
        Ok(Seen {
            noted: NotedNumbers::none_of(alloc, table)?,
            room: Room::new(alloc),
        })
    }

    /// Whether a vertex was noted.
    pub(crate) fn is_noted(&self, number: usize) -> bool
        ensures { result ≡ true → slice_get self.now number ≡ Some true }
    {
        self.noted.is_noted(number)
    }
}
