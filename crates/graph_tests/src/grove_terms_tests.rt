use grove_edits::{Edge, Vertex};
use grove_names::Name;
use grove_sorts::{Ctor, Position};
use grove_terms::*;
use std::alloc::Global;
use std::test::Fail;
use whole_groves::{EdgeList, edges};

// An edge from the root, whose target has no children.
fn to_number(counter: u64) -> Edge {
    Edge {
        name: Name { author: 1, counter },
        source: Vertex::ROOT,
        position: Position::Main,
        target: Vertex {
            name: Name { author: 2, counter },
            ctor: Ctor::Num(counter),
        },
    }
}

// A tree of a head and, where there is one, a child.
fn tree_with<'g>(
    alloc: Global,
    root: &'g Vertex,
    child: Option<&'g Edge>,
) -> Result<Tree<'g>, NoMemory> {
    let mut tree = Tree::new(alloc);
    tree.push(LentNode::head(root))?;
    if let Some(edge) = child {
        tree.push(LentNode::child(1, LentEdge::Whole(edge), Role::MultiRef))?;
    }
    Ok(tree)
}

fn push_tree<'g>(
    alloc: Global,
    trees: &mut TreeList<'g>,
    root: &'g Vertex,
    child: Option<&'g Edge>,
) -> Result<(), NoMemory> {
    let tree = tree_with(alloc, root, child)?;
    trees.push(tree)
}

// Gives each list of trees one with a child.
fn fill<'g>(
    alloc: Global,
    grove: &mut Grove<'g>,
    root: &'g Vertex,
    first: &'g Edge,
    second: &'g Edge,
    third: &'g Edge,
) -> Result<(), NoMemory> {
    push_tree(alloc, &mut grove.cycle, root, Some(third))?;
    push_tree(alloc, &mut grove.none, root, Some(first))?;
    push_tree(alloc, &mut grove.none, root, None)?;
    push_tree(alloc, &mut grove.multi, root, Some(second))
}

fn edges_of(
    alloc: Global,
    root: &Vertex,
    first: &Edge,
    second: &Edge,
    third: &Edge,
) -> Result<EdgeList, whole_groves::NoMemory> {
    let mut grove = Grove {
        none: TreeList::new(alloc),
        multi: TreeList::new(alloc),
        cycle: TreeList::new(alloc),
    };
    fill(alloc, &mut grove, root, first, second, third)?;
    edges(alloc, &grove)
}

#[test]
fn edges_are_listed_tree_by_tree(rt: HostRuntime) -> Result<(), Fail> {
    let root = Vertex::ROOT;
    let first = to_number(1);
    let second = to_number(2);
    let third = to_number(3);
    let listed = edges_of(rt.alloc(), &root, &first, &second, &third)?;
    assert!(rt; listed.len() == 3);
    assert!(rt; listed.get(0) == Some(&first));
    assert!(rt; listed.get(1) == Some(&second));
    assert!(rt; listed.get(2) == Some(&third));
    Ok(())
}

#[test]
fn a_node_is_narrow(rt: HostRuntime) {
    assert!(rt; std::mem::size_of::<LentNode>() == 32);
}
