ghost use Rattle.std.specs.Prelude.{◌≢◌, IfOk};
ghost use Rattle.std.specs.List.{AllByRecursion};
ghost use Rattle.grove_edits.specs.Graph.{graph};
ghost use Rattle.graph_words.specs.declared.class.Class.TheVariants.{Inner};
ghost use Rattle.graph_words.specs.Class.{class};
ghost use Rattle.graph_words.specs.Whole.{AreLive};
ghost use Rattle.graph_table.specs.Table.{live, IsNumber};
ghost use Rattle.grove_terms.specs.Grove.{AreTreesOf, IsGrove};
ghost use Rattle.grove_terms.specs.Sorted.{IsSortedGrove};
ghost use Rattle.grove_decompose.specs.Trees.{OnlyInner, vertices_of};

use graph_table::GraphTable;
use grove_decompose::{Seen, cycle_heads, heads_of, tree_by_number};
use grove_terms::{Grove, TreeList};
use std::alloc::Global;
use text_parts::NoMemory;

/// The grove of the graph of a table, whose trees are well sorted. The table lends it its vertices and edges.
pub fn decompose<'g>(alloc: Global, table: &'g GraphTable) -> Result<Grove<'g>, NoMemory>
    ensures grove { IfOk result (IsGrove (graph table.now.edits)) }
    ensures sorted { IfOk result IsSortedGrove }
{
    insertions_are_live(table);
    let mut seen = Seen::none_of(alloc, table)?;
    let heads = heads_of(alloc, table)?;
    let none = trees_of(alloc, table, &heads.none, &mut seen)?;
    let multi = trees_of(alloc, table, &heads.multi, &mut seen)?;
    let cycles = cycle_heads(alloc, table, &seen)?;
    let cycle = trees_of(alloc, table, &cycles, &mut seen)?;
    Ok(Grove { none, multi, cycle })
}

// The root is a vertex of each graph, so a table has one with the number 0, and what it tells of its parents tells which edges are live.
fn insertions_are_live(table: &GraphTable)
    ensures { AreLive (graph table.now.edits) (live table.now) }
{
    if table.number_count() > 0 {
        table.parents(0);
    }
}

// The trees of some vertices that head one each.
fn trees_of<'g>(
    alloc: Global,
    table: &'g GraphTable,
    heads: &[u32],
    seen: &mut Seen,
) -> Result<TreeList<'g>, NoMemory>
    requires numbers { AllByRecursion (IsNumber table.now) heads.now }
    requires outer { AllByRecursion (λ v. class (live table.now) v ≢ Inner) (vertices_of table.now heads.now) }
    requires seen { OnlyInner table.now seen.old }
    ensures trees { IfOk result (λ trees. AreTreesOf (live table.now) (vertices_of table.now heads.now) trees) }
    ensures seen { OnlyInner table.now seen.new }
{
    let mut trees = TreeList::new(alloc);
    for head in heads {
        trees.push(tree_by_number(alloc, table, *head, seen)?)?;
    }
    Ok(trees)
}
