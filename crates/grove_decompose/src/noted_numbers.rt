ghost use Rattle.std.specs.Prelude.{◌≡◌, Some, true, slice_get, IfOk};
ghost use Rattle.graph_words.specs.declared.class.Class.TheVariants.{Inner};
ghost use Rattle.graph_words.specs.Class.{class};
ghost use Rattle.graph_table.specs.Table.{live, vertex_at};
ghost use Rattle.grove_decompose.specs.Trees.{OnlyInner};

use graph_table::GraphTable;
use std::alloc::Global;
use std::marker::Model;
use text_parts::NoMemory;

/// The numbers of vertices that were listed in the tree of another one.
#[derive(Drop)]
pub(crate) struct NotedNumbers {
    // Whether each number was noted.
    marks: Vec<bool>,
}

impl Model for NotedNumbers {
    ghost use Rattle.std.specs.Prelude.{List, Bool};

    ghost Value = { List Bool };

    ghost view = { λ noted. noted.marks.items };
}

impl NotedNumbers {
    /// None of them.
    pub(crate) fn none_of(alloc: Global, table: &GraphTable) -> Result<NotedNumbers, NoMemory>
        ensures { IfOk result (OnlyInner table.now) }
    {
        Ok(NotedNumbers {
            marks: vec![in alloc; false; table.number_count()]?,
        })
    }

    /// Notes a vertex that stands in the tree of another one.
    pub(crate) fn note(&mut self, table: &GraphTable, number: usize)
        requires inner { class (live table.now) (vertex_at table.now number) ≡ Inner }
        requires seen { OnlyInner table.now self.old }
        ensures { OnlyInner table.now self.new }
    {
        if number < self.marks.len() {
            self.marks[number] = true;
        }
    }

    /// Whether a vertex was noted.
    pub(crate) fn is_noted(&self, number: usize) -> bool
        ensures { result ≡ true → slice_get self.now number ≡ Some true }
    {
        self.marks.get(number).copied() == Some(true)
    }
}
