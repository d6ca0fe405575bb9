ghost use Rattle.std.specs.Prelude.{◌≡◌, ◌++◌, [], ◌∷◌, IfOk, OnOk};
ghost use Rattle.marking.specs.Grove.{IsMarkedTree};
ghost use Rattle.marking.specs.Reading.{meant_nodes};
ghost use Rattle.marking.specs.Numbers.{AreMarkedNodesOf};
ghost use Rattle.kept_printer.specs.Printed.{IsTreeOfMarks};

use crate::taking::take;
use grove_terms::Tree;
use mark_incremental::Marks;
use marking::{Added, MarkedTree};
use std::alloc::Global;
use text_parts::NoMemory;

// Lists what is added to the next node.
fn list(added: &mut Vec<Added>, next: Added) -> Result<(), NoMemory>
    ensures { OnOk result (added.new.items ≡ added.old.items ++ next ∷ []) }
{
    added.reserve(1)?;
    added.push_reserved(next);
    Ok(())
}

/// A tree of the graph for which marks stand, with what marking adds to each of its nodes. Nothing is judged: a vertex has its kept record.
pub fn marked_by_records<'n, 't>(
    alloc: Global,
    tree: &'n Tree<'t>,
    marks: &Marks,
) -> Result<MarkedTree<'n, 't>, NoMemory>
    requires { IsTreeOfMarks marks.now tree.now }
    ensures marked { IfOk result (λ marked. IsMarkedTree tree.now (meant_nodes marks.now.types marked)) }
    ensures numbers { IfOk result (AreMarkedNodesOf marks.now.types) }
{
    let nodes = tree.as_slice();
    let mut parents = Vec::new(alloc);
    let mut added = Vec::with_capacity(alloc, nodes.len())?;
    for node in nodes {
        let next = take(marks, &mut parents, node)?;
        list(&mut added, next)?;
    }
    Ok(MarkedTree::new(nodes, added))
}
