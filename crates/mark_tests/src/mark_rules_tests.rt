ghost use Rattle.std.specs.Prelude.{◌≡◌, List, [], ◌∷◌, IfOk};
ghost use Rattle.grove_terms.specs.Lent.{node_of};
ghost use Rattle.grove_terms.specs.Sorted.{IsSortedTree, IsSortedGrove};

use ctx_table::CtxTable;
use grove_edits::Vertex;
use grove_names::Name;
use grove_sorts::{Ctor, Position, Sort};
use grove_terms::{Grove, LentNode, Node, Tree, TreeList};
use mark_step::{Mark, Mode};
use marking::{Added, MarkedNode, MarkedTree};
use std::alloc::Global;
use std::test::Fail;
use type_core::TypeTable;
use whole_groves::{MarkedGrove, MarkedTreeList, erase, mark_grove};

// The tree of a node that synthesises the unknown type.
fn tree_of_unknown<'n, 't>(
    alloc: Global,
    nodes: &'n [LentNode<'t>; 1],
) -> Result<MarkedTree<'n, 't>, Fail> {
    let types = TypeTable::new(alloc)?;
    let unknown = Added {
        mode: Some(Mode::Syn),
        typ: Some(types.unknown()),
        mark: Mark::None,
    };
    Ok(MarkedTree::new(nodes, vec![in alloc; unknown]?))
}

// The marked grove of a tree alone, without its marks.
fn erase_alone<'t>(alloc: Global, tree: MarkedTree<'_, 't>) -> Result<Grove<'t>, Fail> {
    let mut none = MarkedTreeList::new(alloc);
    none.push(tree)?;
    let marked = MarkedGrove {
        none,
        multi: MarkedTreeList::new(alloc),
        cycle: MarkedTreeList::new(alloc),
    };
    Ok(erase(alloc, &marked)?)
}

// How many nodes the marked tree of a node has, whether none is its second, and its grove without its marks.
fn erase_marked<'t>(
    alloc: Global,
    nodes: &[LentNode<'t>; 1],
) -> Result<(usize, bool, Grove<'t>), Fail> {
    let tree = tree_of_unknown(alloc, nodes)?;
    let (length, ends) = (tree.len(), tree.get(1).is_none());
    let grove = erase_alone(alloc, tree)?;
    Ok((length, ends, grove))
}

#[test]
fn a_hole_is_a_hole_again(rt: HostRuntime) -> Result<(), Fail> {
    let node = LentNode::hole(1, Position::Main, Sort::Exp);
    let (length, ends, grove) = erase_marked(rt.alloc(), &[node])?;
    assert!(rt; length == 1);
    assert!(rt; ends);
    assert!(rt; grove.none.len() == 1);
    assert!(rt; grove.none.get(0).and_then(|tree| tree.get(0)) == Some(node.node()));
    assert!(rt; grove.multi.len() == 0);
    assert!(rt; grove.cycle.len() == 0);
    Ok(())
}

const SEVEN: Vertex = Vertex {
    name: Name {
        author: 1,
        counter: 1,
    },
    ctor: Ctor::Num(7),
};

fn tree_of<'t>(alloc: Global, node: LentNode<'t>) -> Result<Tree<'t>, Fail>
    ensures { IfOk result (λ tree. tree ≡ node_of node.entry ∷ []) }
{
    let mut tree = Tree::new(alloc);
    tree.push(node)?;
    Ok(tree)
}

// The grove of a tree alone.
fn grove_of<'t>(alloc: Global, tree: Tree<'t>) -> Result<Grove<'t>, Fail>
    requires { IsSortedTree tree }
    ensures { IfOk result IsSortedGrove }
{
    let mut none = TreeList::new(alloc);
    none.push(tree)?;
    Ok(Grove {
        none,
        multi: TreeList::new(alloc),
        cycle: TreeList::new(alloc),
    })
}

fn first_of<'t>(marked: &MarkedGrove<'_, 't>) -> Result<MarkedNode<'t>, Fail> {
    match marked.none.get(0).and_then(|tree| tree.get(0)) {
        Some(node) => Ok(node),
        None => Err(Fail::from("a marked node")),
    }
}

// The first node of a grove once it is marked, and how many trees stand in each of its sections.
fn mark<'t>(
    alloc: Global,
    grove: &Grove<'t>,
    types: &mut TypeTable,
) -> Result<(MarkedNode<'t>, [usize; 3]), Fail>
    requires { IsSortedGrove grove.now }
{
    let mut ctxs = CtxTable::new(alloc)?;
    let marked = mark_grove(alloc, grove, types, &mut ctxs)?;
    let first = first_of(&marked)?;
    Ok((
        first,
        [marked.none.len(), marked.multi.len(), marked.cycle.len()],
    ))
}

// The same where the grove is that of a number alone.
fn mark_seven(alloc: Global, types: &mut TypeTable) -> Result<(Node, Added, [usize; 3]), Fail> {
    let vertex = SEVEN;
    let tree = tree_of(alloc, LentNode::head(&vertex))?;
    let grove = grove_of(alloc, tree)?;
    let (number, counts) = mark(alloc, &grove, types)?;
    let added = Added {
        mode: number.mode,
        typ: number.typ,
        mark: number.mark,
    };
    Ok((number.node.node(), added, counts))
}

#[test]
fn a_number_is_marked(rt: HostRuntime) -> Result<(), Fail> {
    let mut types = TypeTable::new(rt.alloc())?;
    let (node, added, [none, multi, cycle]) = mark_seven(rt.alloc(), &mut types)?;
    let vertex = SEVEN;
    assert!(rt; node == LentNode::head(&vertex).node());
    assert!(rt; added.mode == Some(Mode::Syn));
    assert!(rt; added.typ == Some(types.num()));
    assert!(rt; added.mark == Mark::None);
    assert!(rt; none == 1);
    assert!(rt; multi == 0);
    assert!(rt; cycle == 0);
    Ok(())
}
