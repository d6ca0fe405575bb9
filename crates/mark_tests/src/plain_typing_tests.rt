ghost use Rattle.std.specs.Prelude.{◌≡◌, IfOk};
ghost use Rattle.grove_terms.specs.declared.node.What.TheVariants as whats;
ghost use Rattle.grove_terms.specs.Nodes.{child_node, head_node};
ghost use Rattle.grove_terms.specs.Lent.{node_of, nodes_of};
ghost use Rattle.grove_terms.specs.Sorted.{IsSortedTree};

use ctx_table::CtxTable;
use grove_edits::{Edge, Vertex};
use grove_names::Name;
use grove_sorts::{Ctor, Position, Version, read_ident};
use grove_terms::{LentEdge, LentNode, NoMemory, Role, Tree};
use plain_typing::is_typed;
use std::alloc::Global;
use std::test::Fail;
use type_core::TypeTable;

const SUM: Vertex = Vertex {
    name: Name {
        author: 1,
        counter: 1,
    },
    ctor: Ctor::Plus,
};

const LEFT: Edge = Edge {
    name: Name {
        author: 1,
        counter: 2,
    },
    source: SUM,
    position: Position::Left,
    target: Vertex {
        name: Name {
            author: 1,
            counter: 3,
        },
        ctor: Ctor::Num(1),
    },
};

const RIGHT: Edge = Edge {
    name: Name {
        author: 1,
        counter: 6,
    },
    source: SUM,
    position: Position::Right,
    target: Vertex {
        name: Name {
            author: 1,
            counter: 7,
        },
        ctor: Ctor::Num(3),
    },
};

fn head<'g>(vertex: &'g Vertex) -> LentNode<'g>
    ensures { node_of result ≡ head_node vertex.now }
{
    LentNode::head(vertex)
}

fn child<'g>(depth: u64, edge: &'g Edge) -> LentNode<'g>
    ensures { node_of result ≡ child_node depth edge.now.position edge.now (whats.Vertex edge.now.target) }
{
    LentNode::child(depth, LentEdge::Whole(edge), Role::Vertex)
}

fn tree_of<'g>(alloc: Global, nodes: &[LentNode<'g>]) -> Result<Tree<'g>, NoMemory>
    ensures { IfOk result (λ tree. tree ≡ nodes_of nodes.now) }
{
    let mut tree = Tree::new(alloc);
    for node in nodes {
        tree.push(*node)?;
    }
    Ok(tree)
}

fn is_typed_by(alloc: Global, tree: &Tree, types: &mut TypeTable) -> Result<bool, Fail>
    requires sorted { IsSortedTree tree.now }
{
    let mut ctxs = CtxTable::new(alloc)?;
    Ok(is_typed(alloc, tree, types, &mut ctxs)?)
}

fn is_tree_typed(alloc: Global, tree: &Tree) -> Result<bool, Fail>
    requires sorted { IsSortedTree tree.now }
{
    let mut types = TypeTable::new(alloc)?;
    is_typed_by(alloc, tree, &mut types)
}

#[test]
fn a_sum_of_numbers_is_typed(rt: HostRuntime) -> Result<(), Fail> {
    let (sum, left, right) = (SUM, LEFT, RIGHT);
    let tree = tree_of(rt.alloc(), &[head(&sum), child(1, &left), child(1, &right)])?;
    assert!(rt; is_tree_typed(rt.alloc(), &tree)? == true);
    Ok(())
}

#[test]
fn a_sum_with_a_free_variable_is_not_typed(rt: HostRuntime) -> Result<(), Fail> {
    let (sum, left, mut free) = (SUM, LEFT, RIGHT);
    free.target.ctor = Ctor::Var(read_ident(Version::Two, b"x")?);
    let tree = tree_of(rt.alloc(), &[head(&sum), child(1, &left), child(1, &free)])?;
    assert!(rt; is_tree_typed(rt.alloc(), &tree)? == false);
    Ok(())
}
