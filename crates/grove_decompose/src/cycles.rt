ghost use Rattle.std.specs.Prelude.{◌≡◌, ◌<◌, ◌+◌, ◌^◌, true, length, IfOk, OnOk};
ghost use Rattle.std.specs.List.{AllByRecursion, IsDistinct};
ghost use Rattle.grove_edits.specs.declared.vertex.Vertex.{Vertex};
ghost use Rattle.grove_edits.specs.Vertex.{is_same_vertex, stands_in};
ghost use Rattle.graph_words.specs.declared.class.Class.TheVariants.{Cycle};
ghost use Rattle.graph_words.specs.Class.{is_cycle_root, of_class};
ghost use Rattle.graph_table.specs.Table.{live, IsNumber};
ghost use Rattle.grove_decompose.specs.Trees.{vertices_of};
ghost use Rattle.grove_decompose.specs.Met.{marked};

use crate::cycle::root_of_cycle;
use crate::met::{Met, walk_up};
use graph_table::GraphTable;
use std::alloc::Global;
use text_parts::NoMemory;

// The numbers of walks, and those that are one more, are kept in 32 bits.
fn want_walks(starts: &[u32]) -> Result<(), NoMemory>
    ensures { OnOk result (length starts.now + 1 < 2 ^ 32) }
{
    if starts.len() >= u32::MAX as usize {
        return Err(NoMemory);
    }
    Ok(())
}

/// Which vertices are the roots of the cycles to which the walks up from some vertices lead, by their numbers.
fn roots_above(alloc: Global, table: &GraphTable, starts: &[u32]) -> Result<Vec<bool>, NoMemory>
    requires { AllByRecursion (IsNumber table.now) starts.now }
    ensures once { IsDistinct is_same_vertex table.now.vertices }
    ensures all { IfOk result (λ roots. length roots.items ≡ length table.now.vertices) }
    ensures roots { IfOk result (λ roots. (v : Vertex) → stands_in v (vertices_of table.now starts.now) ≡ true
        → stands_in v (marked table.now.vertices roots.items) ≡ is_cycle_root (live table.now) v) }
{
    let count = table.number_count();
    want_walks(starts)?;
    let mut met = Met::none_of(alloc, count)?;
    let mut roots = vec![in alloc; false; count]?;
    for (walk, start) in starts.iter().enumerate() {
        if let Some(entry) = walk_up(table, *start as usize, walk, &mut met) {
            let root = root_of_cycle(table, entry);
            roots[root] = true;
        }
    }
    Ok(roots)
}

/// Those of some vertices that are the roots of cycles, by their numbers. However long the chains above them are, each vertex is
/// walked over twice at most.
pub(crate) fn cycle_roots(
    alloc: Global,
    table: &GraphTable,
    starts: &[u32],
) -> Result<Vec<u32>, NoMemory>
    requires { AllByRecursion (IsNumber table.now) starts.now }
    ensures cycle { IfOk result (λ roots. vertices_of table.now roots.items ≡ of_class Cycle (live table.now) (vertices_of table.now starts.now)) }
    ensures numbers { IfOk result (λ roots. AllByRecursion (IsNumber table.now) roots.items) }
{
    let roots = roots_above(alloc, table, starts)?;
    let mut found = Vec::new(alloc);
    for start in starts {
        if roots[*start as usize] {
            found.push(*start)?;
        }
    }
    Ok(found)
}
