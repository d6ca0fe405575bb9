ghost use Rattle.std.specs.Prelude.{◌≡◌, ◌<◌, ◌^◌, length, map, slice_get};
ghost use Rattle.marking.specs.Added.{added_to, marked_nodes};

use crate::added::Added;
use crate::marked_node::MarkedNode;
use grove_terms::LentNode;
use std::marker::Model;

/// The nodes of a marked tree in preorder. The tree lends them, with edges and vertices lent by the graph, and what marking adds to each
/// stands beside them.
#[derive(Debug, Drop)]
pub struct MarkedTree<'n, 't: 'n> {
    nodes: &'n [LentNode<'t>],
    added: Vec<Added>,
}

impl<'n, 't: 'n> Model for MarkedTree<'n, 't> {
    ghost use Rattle.std.specs.Prelude.{◌≡◌, List, length};
    ghost use Rattle.marking.specs.declared.marked_node.MarkedNode.{MarkedNode};
    ghost use Rattle.marking.specs.Added.{marked_nodes};

    ghost Value = { List MarkedNode };

    ghost view = { λ tree. marked_nodes tree.nodes.now tree.added.items };

    ghost invariant = { λ tree. length tree.added.items ≡ length tree.nodes.now };
}

impl<'n, 't: 'n> MarkedTree<'n, 't> {
    /// These nodes, with what marking adds to each.
    pub fn new(nodes: &'n [LentNode<'t>], added: Vec<Added>) -> MarkedTree<'n, 't>
        requires { length added.items ≡ length nodes.now }
        ensures { result ≡ marked_nodes nodes.now added.items }
    {
        MarkedTree { nodes, added }
    }

    pub fn len(&self) -> usize
        ensures len { result ≡ length self.now }
        ensures small { result < 2 ^ 63 }
    {
        self.nodes.len()
    }

    /// The node at an index, or None past the end.
    pub fn get(&self, index: usize) -> Option<MarkedNode<'t>>
        ensures { result ≡ slice_get self.now index }
    {
        if index < self.nodes.len() {
            Some(MarkedNode::new(&self.nodes[index], &self.added[index]))
        } else {
            None
        }
    }

    /// The nodes without what marking adds.
    pub fn nodes(&self) -> &'n [LentNode<'t>]
        ensures { result.now ≡ map (λ m. m.node) self.now }
    {
        self.nodes
    }

    /// What marking adds to each node, in their order.
    pub fn added(&self) -> &[Added]
        ensures { result.now ≡ map added_to self.now }
    {
        &self.added
    }
}
