ghost use Rattle.std.specs.Prelude.{◌≡◌, ◌<◌, ◌^◌, [], ◌∷◌, ◌++◌, length, slice_get, OnOk, OnErr};
ghost use Rattle.grove_terms.specs.Lent.{node_of, nodes_of};

use crate::node::{LentNode, Node};
use std::alloc::Global;
use std::marker::Model;
use text_parts::NoMemory;

/// The nodes of a tree in preorder, with edges and vertices lent by the graph.
#[derive(Debug, Drop)]
pub struct Tree<'g> {
    nodes: Vec<LentNode<'g>>,
}

impl<'g> Model for Tree<'g> {
    ghost use Rattle.std.specs.Prelude.{List};
    ghost use Rattle.grove_terms.specs.declared.node.Node.{Node};
    ghost use Rattle.grove_terms.specs.Lent.{nodes_of};

    ghost Value = { List Node };

    ghost view = { λ tree. nodes_of tree.nodes.items };
}

impl<'g> Tree<'g> {
    /// A tree without nodes, to which they are pushed in preorder.
    pub fn new(alloc: Global) -> Tree<'g>
        ensures empty { result ≡ [] }
    {
        Tree {
            nodes: Vec::new(alloc),
        }
    }

    /// Appends a node.
    pub fn push(&mut self, node: LentNode<'g>) -> Result<(), NoMemory>
        ensures appended { OnOk result (self.new ≡ self.old ++ node_of node.entry ∷ []) }
        ensures unchanged { OnErr result (self.new ≡ self.old) }
    {
        self.nodes.push(node)?;
        Ok(())
    }

    pub fn len(&self) -> usize
        ensures len { result ≡ length self.now }
        ensures small { result < 2 ^ 63 }
    {
        self.nodes.len()
    }

    /// The node at an index, or None past the end.
    pub fn get(&self, index: usize) -> Option<Node>
        ensures { result ≡ slice_get self.now index }
    {
        let node = self.nodes.get(index)?;
        Some(node.node())
    }

    pub fn as_slice(&self) -> &[LentNode<'g>]
        ensures { nodes_of result.now ≡ self.now }
    {
        &self.nodes
    }
}
