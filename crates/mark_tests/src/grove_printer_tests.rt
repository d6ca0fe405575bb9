ghost use Rattle.std.specs.Prelude.{List, IfOk};
ghost use Rattle.type_core.specs.Typ.{Typ};
ghost use Rattle.marking.specs.Numbers.{IsAddedOf, AreMarkedNodesOf};
ghost use Rattle.whole_groves.specs.Marked.{IsMarkedGroveOf};

use grove_edits::{Edge, Vertex};
use grove_names::Name;
use grove_printer::*;
use grove_sorts::{Ctor, Position, Sort};
use grove_terms::{LentEdge, LentNode, Role};
use mark_step::{Mark, Mode};
use marking::{Added, MarkedTree};
use seeded_hash::HashSeed;
use std::alloc::Global;
use std::test::Fail;
use type_core::TypeTable;
use whole_groves::{MarkedGrove, MarkedTreeList, print_grove, print_marked_lines};

// The tree of two nodes, to the first of which nothing is added.
fn tree_of<'n, 't>(
    alloc: Global,
    nodes: &'n [LentNode<'t>; 2],
    added: Added,
) -> Result<MarkedTree<'n, 't>, Fail>
    ensures { (types : List Typ) → IsAddedOf types added → IfOk result (AreMarkedNodesOf types) }
{
    let nothing = Added {
        mode: None,
        typ: None,
        mark: Mark::None,
    };
    Ok(MarkedTree::new(nodes, vec![in alloc; nothing, added]?))
}

// The marked grove of that tree alone.
fn grove_of<'n, 't>(
    alloc: Global,
    nodes: &'n [LentNode<'t>; 2],
    added: Added,
) -> Result<MarkedGrove<'n, 't>, Fail>
    ensures { (types : List Typ) → IsAddedOf types added → IfOk result (IsMarkedGroveOf types) }
{
    let mut none = MarkedTreeList::new(alloc);
    none.push(tree_of(alloc, nodes, added)?)?;
    Ok(MarkedGrove {
        none,
        multi: MarkedTreeList::new(alloc),
        cycle: MarkedTreeList::new(alloc),
    })
}

// Prints the marked grove of the tree of these nodes alone.
fn print_grove_of(
    alloc: Global,
    nodes: &[LentNode; 2],
    types: &TypeTable,
    added: Added,
    text: &mut Vec<u8>,
) -> Result<(), Fail>
    requires { IsAddedOf types.now added }
{
    let marked = grove_of(alloc, nodes, added)?;
    print_grove(&marked, types, text)?;
    Ok(())
}

// Prints the lines of that grove that have a mark.
fn print_marked_lines_alone(
    alloc: Global,
    nodes: &[LentNode; 2],
    types: &TypeTable,
    added: Added,
    text: &mut Vec<u8>,
) -> Result<(), Fail>
    requires { IsAddedOf types.now added }
{
    let marked = grove_of(alloc, nodes, added)?;
    print_marked_lines(&marked, types, text)?;
    Ok(())
}

// Prints the grove of the root and a hole, where a truth value is wanted of the hole and it is a number.
fn print_hole(alloc: Global, text: &mut Vec<u8>) -> Result<(), Fail> {
    let types = TypeTable::new(alloc)?;
    let head = Vertex::ROOT;
    let nodes = [
        LentNode::head(&head),
        LentNode::hole(1, Position::Main, Sort::Exp),
    ];
    let hole = Added {
        mode: Some(Mode::Ana(types.boolean())),
        typ: Some(types.num()),
        mark: Mark::Inconsistent,
    };
    print_grove_of(alloc, &nodes, &types, hole, text)
}

#[test]
fn a_marked_grove_is_printed(rt: HostRuntime) -> Result<(), Fail> {
    let mut text = Vec::new(rt.alloc());
    print_hole(rt.alloc(), &mut text)?;
    assert!(rt;
        text.as_slice()
            == b"none 1
0 - - 0.0 root top - -
1 main - - hole ana:bool num inconsistent
multi 0
cycle 0
"
                .as_slice()
    );
    Ok(())
}

// Prints the marked line of a conditional below the root whose branches differ.
fn print_branches(alloc: Global, text: &mut Vec<u8>) -> Result<(), Fail> {
    let types = TypeTable::new(alloc)?;
    let edge = Edge {
        name: Name {
            author: 1,
            counter: 2,
        },
        source: Vertex::ROOT,
        position: Position::Main,
        target: Vertex {
            name: Name {
                author: 1,
                counter: 1,
            },
            ctor: Ctor::Choose,
        },
    };
    let head = Vertex::ROOT;
    let nodes = [
        LentNode::head(&head),
        LentNode::child(1, LentEdge::Whole(&edge), Role::Vertex),
    ];
    let added = Added {
        mode: Some(Mode::Syn),
        typ: Some(types.unknown()),
        mark: Mark::Branches,
    };
    print_marked_lines_alone(alloc, &nodes, &types, added, text)
}

#[test]
fn a_marked_line_stands_alone(rt: HostRuntime) -> Result<(), Fail> {
    let mut text = Vec::new(rt.alloc());
    print_branches(rt.alloc(), &mut text)?;
    assert!(rt; text.as_slice() == b"1 main 1.2 1.1 if syn ? branches\n".as_slice());
    Ok(())
}
