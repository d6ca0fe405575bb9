use edit_table::EditTable;
use graph_table::GraphTable;
use grove_decompose::*;
use grove_edits::{Edge, Edit, EditList, Vertex};
use grove_names::Name;
use grove_sorts::{Ctor, Position};
use grove_terms::What;
use seeded_hash::HashSeed;
use std::alloc::Global;
use std::test::Fail;
use whole_groves::decompose;

fn vertex(counter: u64, ctor: Ctor) -> Vertex {
    Vertex {
        name: Name { author: 1, counter },
        ctor,
    }
}

fn edge(counter: u64, source: Vertex, position: Position, target: Vertex) -> Edge {
    Edge {
        name: Name { author: 1, counter },
        source,
        position,
        target,
    }
}

// A sum that has one vertex on both of its sides.
fn push_sum(edits: &mut EditList) -> Result<(), Fail> {
    let sum = vertex(1, Ctor::Plus);
    let seven = vertex(3, Ctor::Num(7));
    edits.push(Edit::insert(edge(4, sum, Position::Left, seven))?)?;
    edits.push(Edit::insert(edge(5, sum, Position::Right, seven))?)?;
    Ok(())
}

// How many trees each list of the grove has, and what the third node in the second tree of the first list is.
fn listed(alloc: Global, graph: &GraphTable) -> Result<([usize; 3], Option<What>), NoMemory> {
    let grove = decompose(alloc, graph)?;
    let counts = [grove.none.len(), grove.multi.len(), grove.cycle.len()];
    let node = grove.none.get(1).and_then(|tree| tree.get(2));
    Ok((counts, node.map(|node| node.what)))
}

fn listed_of(alloc: Global, edits: &EditList) -> Result<([usize; 3], Option<What>), NoMemory> {
    let table = EditTable::of_list(alloc, edits, HashSeed::FIXED)?;
    let graph = GraphTable::of(alloc, table)?;
    listed(alloc, &graph)
}

fn listed_of_sum(alloc: Global) -> Result<([usize; 3], Option<What>), Fail> {
    let mut edits = EditList::new(alloc);
    push_sum(&mut edits)?;
    Ok(listed_of(alloc, &edits)?)
}

#[test]
fn a_shared_part_heads_its_own_tree(rt: HostRuntime) -> Result<(), Fail> {
    let ([none, multi, cycle], whole) = listed_of_sum(rt.alloc())?;
    // The root, and the sum.
    assert!(rt; none == 2);
    assert!(rt; multi == 1);
    assert!(rt; cycle == 0);
    let seven = vertex(3, Ctor::Num(7));
    assert!(rt; whole == Some(What::MultiRef(seven)));
    Ok(())
}
