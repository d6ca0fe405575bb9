ghost use Rattle.std.specs.Prelude.{◌≡◌, ◌≢◌, false, length, IfOk};
ghost use Rattle.std.specs.List.{AllByRecursion};
ghost use Rattle.graph_words.specs.declared.class.Class.TheVariants.{Cycle};
ghost use Rattle.graph_words.specs.Class.{class, of_class};
ghost use Rattle.graph_table.specs.Table.{live, vertex_at, IsNumber};
ghost use Rattle.grove_decompose.specs.Trees.{OnlyInner, vertices_of};

use crate::seen::Seen;
use graph_table::{GraphTable, Parents};
use std::alloc::Global;
use text_parts::NoMemory;

// Whether a vertex was not seen and has one parent. No other one is the least of a cycle.
fn may_be_root(table: &GraphTable, number: usize, seen: &Seen) -> bool
    requires number { IsNumber table.now number }
    requires seen { OnlyInner table.now seen.now }
    ensures { result ≡ false → class (live table.now) (vertex_at table.now number) ≢ Cycle }
{
    if seen.is_noted(number) {
        return false;
    }
    matches!(table.parents(number), Parents::One(_))
}

/// The vertices that may be the least of a cycle, by their numbers.
pub(crate) fn candidates_of(
    alloc: Global,
    table: &GraphTable,
    count: u32,
    seen: &Seen,
) -> Result<Vec<u32>, NoMemory>
    requires count { count ≡ length table.now.vertices }
    requires seen { OnlyInner table.now seen.now }
    ensures cycle { IfOk result (λ some. of_class Cycle (live table.now) (vertices_of table.now some.items) ≡ of_class Cycle (live table.now) table.now.vertices) }
    ensures numbers { IfOk result (λ some. AllByRecursion (IsNumber table.now) some.items) }
{
    let mut candidates = Vec::new(alloc);
    for number in 0..count {
        if may_be_root(table, number as usize, seen) {
            candidates.push(number)?;
        }
    }
    Ok(candidates)
}
