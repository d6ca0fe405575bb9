ghost use Rattle.std.specs.Prelude.{◌≡◌, map, IfOk};
ghost use Rattle.marking.specs.Reading.{bare_nodes};

use crate::marked_grove::MarkedGrove;
use crate::marked_tree_list::MarkedTreeList;
use grove_terms::{Grove, Tree, TreeList};
use marking::MarkedTree;
use std::alloc::Global;
use text_parts::NoMemory;

/// The grove without what marking added.
pub fn erase<'t>(alloc: Global, marked: &MarkedGrove<'_, 't>) -> Result<Grove<'t>, NoMemory>
    ensures none { IfOk result (λ grove. grove.none ≡ map bare_nodes marked.now.none) }
    ensures multi { IfOk result (λ grove. grove.multi ≡ map bare_nodes marked.now.multi) }
    ensures cycle { IfOk result (λ grove. grove.cycle ≡ map bare_nodes marked.now.cycle) }
{
    let none = erase_trees(alloc, &marked.none)?;
    let multi = erase_trees(alloc, &marked.multi)?;
    let cycle = erase_trees(alloc, &marked.cycle)?;
    Ok(Grove { none, multi, cycle })
}

fn erase_trees<'t>(alloc: Global, marked: &MarkedTreeList<'_, 't>) -> Result<TreeList<'t>, NoMemory>
    ensures { IfOk result (λ trees. trees ≡ map bare_nodes marked.now) }
{
    let mut trees = TreeList::new(alloc);
    for tree in marked.as_slice() {
        trees.push(erase_tree(alloc, tree)?)?;
    }
    Ok(trees)
}

fn erase_tree<'t>(alloc: Global, marked: &MarkedTree<'_, 't>) -> Result<Tree<'t>, NoMemory>
    ensures { IfOk result (λ tree. tree ≡ bare_nodes marked.now) }
{
    let mut tree = Tree::new(alloc);
    for node in marked.nodes() {
        tree.push(*node)?;
    }
    Ok(tree)
}
