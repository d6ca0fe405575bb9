ghost use Rattle.std.specs.Prelude.{◌≡◌, List, ◌++◌, map, option_to_list, IfOk, OnOk, IfSome};
ghost use Rattle.grove_terms.specs.declared.node.LentNode.{LentNode};
ghost use Rattle.grove_terms.specs.Lent.{node_of};
ghost use Rattle.type_core.specs.Typ.{Typ};
ghost use Rattle.mark_step.specs.Node.{wanted_at, IsModeOf};
ghost use Rattle.marking.specs.Added.{with_added};
ghost use Rattle.marking.specs.Reading.{meant};
ghost use Rattle.marking.specs.Numbers.{IsAddedOf};
ghost use Rattle.mark_incremental.specs.Reading.{AreRecordsOf};
ghost use Rattle.mark_incremental.specs.Standing.{records_in};
ghost use Rattle.kept_printer.specs.Above.{wanted_below, up_to, node_told, counted, above_after};
ghost use Rattle.kept_printer.specs.Parents.{parent_at, parents_at, IsParentOf, AreParentsOf};

use crate::added::added_to;
use crate::parent::{Parent, opened};
use grove_terms::LentNode;
use mark_incremental::Marks;
use mark_step::Mode;
use marking::Added;
use text_parts::NoMemory;
use type_core::TypeTable;

// Takes off what the next node, at this depth, does not stand under.
fn close_to(parents: &mut Vec<Parent>, depth: u64)
    ensures left { (types : List Typ) → parents_at types parents.new.items ≡ up_to depth (parents_at types parents.old.items) }
    ensures numbers { (types : List Typ) → AreParentsOf types parents.old.items → AreParentsOf types parents.new.items }
{
    parents.truncate(depth as usize);
}

// What is wanted of the next node under this, or of the head of a tree.
fn mode_below(types: &TypeTable, parent: &Option<Parent>) -> Mode
    requires { IfSome parent.now (IsParentOf types.now) }
    ensures wanted { wanted_at types.now result ≡ wanted_below (map (parent_at types.now) (option_to_list parent.now)) }
    ensures number { IsModeOf types.now result }
{
    match parent {
        Some(parent) => parent.mode_under(types),
        None => Mode::Syn,
    }
}

// What stands there after a node to which this is added.
fn counted<'t>(parent: Option<Parent<'t>>, added: &Added) -> Option<Parent<'t>>
    ensures counted { (types : List Typ) (node : LentNode) → map (parent_at types) (option_to_list result) ≡ counted (meant types (with_added node added.now)) (map (parent_at types) (option_to_list parent.entry)) }
    ensures numbers { (types : List Typ) → IfSome parent.entry (IsParentOf types) → IsAddedOf types added.now → IfSome result (IsParentOf types) }
{
    match parent {
        Some(parent) => Some(parent.after(added)),
        None => None,
    }
}

fn push_if<'t>(parents: &mut Vec<Parent<'t>>, parent: Option<Parent<'t>>) -> Result<(), NoMemory>
    ensures { OnOk result (parents.new.items ≡ parents.old.items ++ option_to_list parent.entry) }
{
    if let Some(parent) = parent {
        parents.reserve(1)?;
        parents.push_reserved(parent);
    }
    Ok(())
}

/// What marking adds to the next node, by what stands above it and by kept records, and what stands above the node after it.
pub(crate) fn take<'t>(
    marks: &Marks,
    parents: &mut Vec<Parent<'t>>,
    node: &LentNode<'t>,
) -> Result<Added, NoMemory>
    requires records { AreRecordsOf marks.now.types marks.now.contexts marks.now.records }
    requires parents { AreParentsOf marks.now.types parents.old.items }
    ensures told { IfOk result (λ added. meant marks.now.types (with_added node.now added)
        ≡ node_told (records_in marks.now) (up_to (node_of node.now).depth (parents_at marks.now.types parents.old.items)) (node_of node.now)) }
    ensures above { IfOk result (λ added. parents_at marks.now.types parents.new.items
        ≡ above_after (meant marks.now.types (with_added node.now added)) (up_to (node_of node.now).depth (parents_at marks.now.types parents.old.items))) }
    ensures numbers { IfOk result (IsAddedOf marks.now.types) }
    ensures parents { OnOk result (AreParentsOf marks.now.types parents.new.items) }
{
    close_to(parents, node.depth());
    let parent = parents.pop();
    let mode = mode_below(marks.types(), &parent);
    let added = added_to(marks, mode, node);
    push_if(parents, counted(parent, &added))?;
    push_if(parents, opened(node, &added))?;
    Ok(added)
}
