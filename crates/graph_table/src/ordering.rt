ghost use Rattle.std.specs.Prelude.{◌≡◌, map, IfOk};
ghost use Rattle.std.specs.List.{AllByRecursion};
ghost use Rattle.std.specs.List.Sorted.{IsPermutation, IsSorted};
ghost use Rattle.grove_edits.specs.Vertex.{vertex_cmp};
ghost use Rattle.graph_table.specs.Table.{vertex_at, IsNumber};
ghost use Rattle.graph_table.specs.Named.{numbers_of, IsNamed};

use crate::named_vertex::NamedVertex;
use edit_table::{EditTable, compare_lent};
use std::alloc::Global;
use text_parts::NoMemory;

// Some numbers of vertices, in vertex order.
pub(crate) fn in_vertex_order(
    alloc: Global,
    table: &EditTable,
    numbers: &[u32],
) -> Result<Vec<u32>, NoMemory>
    requires { AllByRecursion (IsNumber table.now) numbers.now }
    ensures same { IfOk result (λ list. IsPermutation numbers.now list.items) }
    ensures order { IfOk result (λ list. IsSorted vertex_cmp (map (vertex_at table.now) list.items)) }
    ensures numbers { IfOk result (λ list. AllByRecursion (IsNumber table.now) list.items) }
{
    let mut list = named_vertices(alloc, table, numbers)?;
    list.sort_unstable_by(|a, b| compare_lent(&a.vertex, &b.vertex));
    numbers_of(alloc, &list)
}

fn named_vertices<'t>(
    alloc: Global,
    table: &'t EditTable,
    numbers: &[u32],
) -> Result<Vec<NamedVertex<'t>>, NoMemory>
    requires { AllByRecursion (IsNumber table.now) numbers.now }
    ensures numbers { IfOk result (λ list. numbers_of list.items ≡ numbers.now) }
    ensures named { IfOk result (λ list. AllByRecursion (IsNamed table.now) list.items) }
{
    let mut list = Vec::with_capacity(alloc, numbers.len())?;
    for number in numbers {
        list.push(NamedVertex {
            vertex: table.lent(*number as usize),
            number: *number,
        })?;
    }
    Ok(list)
}

fn numbers_of(alloc: Global, list: &[NamedVertex]) -> Result<Vec<u32>, NoMemory>
    ensures { IfOk result (λ numbers. numbers.items ≡ numbers_of list.now) }
{
    let mut numbers = Vec::with_capacity(alloc, list.len())?;
    for named in list {
        numbers.push(named.number)?;
    }
    Ok(numbers)
}
