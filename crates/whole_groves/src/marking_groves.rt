ghost use Rattle.std.specs.Prelude.{map, IfOk};
ghost use Rattle.type_core.specs.TypeTable.{KeepsTypes};
ghost use Rattle.ctx_table.specs.CtxTable.{KeepsContexts};
ghost use Rattle.marking.specs.Grove.{AreMarkedTrees, IsMarkedGrove};
ghost use Rattle.marking.specs.Reading.{meant_nodes};
ghost use Rattle.whole_groves.specs.Marked.{meant_grove, AreMarkedListsOf, IsMarkedGroveOf};
ghost use Rattle.grove_terms.specs.Sorted.{AreSortedTrees, IsSortedGrove};

use crate::marked_grove::MarkedGrove;
use crate::marked_tree_list::MarkedTreeList;
use ctx_table::CtxTable;
use grove_terms::{Grove, TreeList};
use mark_rules::{OpenFrames, mark_tree};
use std::alloc::Global;
use text_parts::NoMemory;
use type_core::TypeTable;

fn mark_trees<'n, 't>(
    alloc: Global,
    trees: &'n TreeList<'t>,
    types: &mut TypeTable,
    ctxs: &mut CtxTable,
) -> Result<MarkedTreeList<'n, 't>, NoMemory>
    requires sorted { AreSortedTrees trees.now }
    ensures marked { IfOk result (λ marked. AreMarkedTrees trees.now (map (meant_nodes types.new) marked)) }
    ensures numbers { IfOk result (λ marked. AreMarkedListsOf types.new marked) }
    ensures types { KeepsTypes types.old types.new }
    ensures contexts { KeepsContexts ctxs.old ctxs.new }
{
    let mut marked = MarkedTreeList::new(alloc);
    let mut room = OpenFrames::new(alloc);
    for tree in trees.as_slice() {
        marked.push(mark_tree(alloc, tree, types, ctxs, &mut room)?)?;
    }
    Ok(marked)
}

/// The trees of a grove of well-sorted trees, each marked by itself. The numbers of both tables keep their meaning, also where memory
/// runs out.
pub fn mark_grove<'n, 't>(
    alloc: Global,
    grove: &'n Grove<'t>,
    types: &mut TypeTable,
    ctxs: &mut CtxTable,
) -> Result<MarkedGrove<'n, 't>, NoMemory>
    requires sorted { IsSortedGrove grove.now }
    ensures marked { IfOk result (λ marked. IsMarkedGrove grove.now (meant_grove types.new marked)) }
    ensures numbers { IfOk result (λ marked. IsMarkedGroveOf types.new marked) }
    ensures types { KeepsTypes types.old types.new }
    ensures contexts { KeepsContexts ctxs.old ctxs.new }
{
    let none = mark_trees(alloc, &grove.none, types, ctxs)?;
    let multi = mark_trees(alloc, &grove.multi, types, ctxs)?;
    let cycle = mark_trees(alloc, &grove.cycle, types, ctxs)?;
    Ok(MarkedGrove { none, multi, cycle })
}
