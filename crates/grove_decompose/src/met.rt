ghost use Rattle.std.specs.Prelude.{◌≡◌, ◌<◌, ◌+◌, ◌^◌, length, option_map, replicate, slice_set, IfOk, IfSome, IsSome};
ghost use Rattle.std.specs.List.{IsDistinct};
ghost use Rattle.grove_edits.specs.Vertex.{is_same_vertex};
ghost use Rattle.graph_words.specs.Met.{met_by, KeepsMet, AreNumbered, HasEnded};
ghost use Rattle.graph_table.specs.Table.{live, vertex_at, IsNumber};
ghost use Rattle.grove_decompose.specs.Met.{met_of, walk_at};

use crate::above::number_above;
use graph_table::GraphTable;
use std::alloc::Global;
use std::marker::Model;
use text_parts::NoMemory;

/// Which walk up met each vertex first, by the numbers of the vertices.
#[derive(Drop)]
pub(crate) struct Met {
    // One more than the number of that walk, or zero where no walk has met the vertex.
    marks: Vec<u32>,
}

impl Model for Met {
    ghost use Rattle.std.specs.Prelude.{List, ℕ};

    ghost Value = { List ℕ };

    ghost view = { λ met. met.marks.items };
}

impl Met {
    /// Before the first walk.
    pub(crate) fn none_of(alloc: Global, count: usize) -> Result<Met, NoMemory>
        ensures { IfOk result (λ met. met ≡ replicate count 0) }
    {
        Ok(Met {
            marks: vec![in alloc; 0; count]?,
        })
    }

    fn walk(&self, number: usize) -> Option<usize>
        requires { number < length self.now }
        ensures { result ≡ walk_at self.now number }
    {
        (self.marks[number] as usize).checked_sub(1)
    }

    fn enter(&mut self, number: usize, walk: usize)
        requires number { number < length self.old }
        requires walk { walk + 1 < 2 ^ 32 }
        ensures { self.new ≡ slice_set self.old number (walk + 1) }
    {
        self.marks[number] = walk as u32 + 1;
    }
}

/// Walks up from a vertex until no vertex is above, or until one was met already, and notes the walk's number at those that it meets
/// first. It answers the vertex to which it came back, if it met that one itself.
pub(crate) fn walk_up(table: &GraphTable, start: usize, walk: usize, met: &mut Met) -> Option<usize>
    requires once { IsDistinct is_same_vertex table.now.vertices }
    requires start { IsNumber table.now start }
    requires walk { walk + 1 < 2 ^ 32 }
    requires all { length met.old ≡ length table.now.vertices }
    requires earlier { AreNumbered walk (met_of table.now.vertices met.old) }
    ensures all { length met.new ≡ length table.now.vertices }
    ensures start { IsSome (met_by (met_of table.now.vertices met.new) (vertex_at table.now start)) }
    ensures kept { KeepsMet walk (met_of table.now.vertices met.old) (met_of table.now.vertices met.new) }
    ensures number { IfSome result (IsNumber table.now) }
    ensures ended { HasEnded (live table.now) walk (met_of table.now.vertices met.old) (met_of table.now.vertices met.new) (option_map (vertex_at table.now) result) }
{
    let mut at = start;
    loop {
        if let Some(earlier) = met.walk(at) {
            return if earlier == walk { Some(at) } else { None };
        }
        met.enter(at, walk);
        let Some(above) = number_above(table, at) else {
            return None;
        };
        at = above;
    }
}
