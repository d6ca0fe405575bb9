ghost use Rattle.std.specs.Prelude.{◌≡◌, ◌++◌, IfOk, OnOk};
ghost use Rattle.grove_terms.specs.Nodes.{node_edges};
ghost use Rattle.grove_terms.specs.Grove.{trees_edges, edges_in};

use crate::edge_list::EdgeList;
use grove_terms::{Grove, Tree};
use std::alloc::Global;
use text_parts::NoMemory;

/// The edge of each place of a grove, tree by tree and in preorder.
pub fn edges(alloc: Global, grove: &Grove) -> Result<EdgeList, NoMemory>
    ensures edges { IfOk result (λ list. list ≡ edges_in grove.now) }
{
    let mut edges = EdgeList::new(alloc);
    push_trees(grove.none.as_slice(), &mut edges)?;
    push_trees(grove.multi.as_slice(), &mut edges)?;
    push_trees(grove.cycle.as_slice(), &mut edges)?;
    Ok(edges)
}

fn push_trees(trees: &[Tree], edges: &mut EdgeList) -> Result<(), NoMemory>
    ensures { OnOk result (edges.new ≡ edges.old ++ trees_edges trees.now) }
{
    for tree in trees {
        push_tree(tree, edges)?;
    }
    Ok(())
}

fn push_tree(tree: &Tree, edges: &mut EdgeList) -> Result<(), NoMemory>
    ensures { OnOk result (edges.new ≡ edges.old ++ node_edges tree.now) }
{
    for node in tree.as_slice() {
        if let Some(edge) = node.edge() {
            edges.push(edge.edge())?;
        }
    }
    Ok(())
}
