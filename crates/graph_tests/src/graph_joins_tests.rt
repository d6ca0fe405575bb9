use edge_lattice::State;
use graph_joins::*;
use grove_edits::{Edge, Edit, Vertex};
use grove_names::Name;
use grove_sorts::{Ctor, Position};
use live_graph::LiveGraph;
use seeded_hash::HashSeed;
use std::alloc::Global;
use std::process::Abort;
use std::test::Fail;

fn below_root(author: u32, ctor: Ctor) -> Edge {
    Edge {
        name: Name { author, counter: 2 },
        source: Vertex::ROOT,
        position: Position::Main,
        target: Vertex {
            name: Name { author, counter: 1 },
            ctor,
        },
    }
}

// A graph of the deletion of one edge and the insertion of another.
fn check_merged<R: Abort>(
    rt: &R,
    alloc: Global,
    merged: &LiveGraph,
    seven: Edit,
    truth: Edit,
) -> Result<(), Fail> {
    assert!(rt; merged.in_order(alloc)?.as_slice() == [seven, truth].as_slice());
    let vertices = [Vertex::ROOT, seven.edge().target, truth.edge().target];
    assert!(rt; merged.vertices(alloc)?.as_slice() == vertices.as_slice());
    assert!(rt; merged.state(&seven.edge()) == State::Deleted);
    assert!(rt; merged.greatest(1) == 2);
    Ok(())
}

fn merge_both<R: Abort>(
    rt: &R,
    alloc: Global,
    first: &mut LiveGraph,
    seven: Edit,
    truth: Edit,
) -> Result<(), Fail> {
    let second = graph_of(alloc, HashSeed::FIXED, &[seven])?;
    merge(alloc, first, &second)?;
    check_merged(rt, alloc, first, seven, truth)
}

fn check_merge<R: Abort>(rt: &R, alloc: Global, seven: Edit, truth: Edit) -> Result<(), Fail> {
    let mut first = graph_of(alloc, HashSeed::FIXED, &[truth])?;
    merge_both(rt, alloc, &mut first, seven, truth)
}

#[test]
fn graphs_merge(rt: HostRuntime) -> Result<(), Fail> {
    let seven = Edit::delete(below_root(1, Ctor::Num(7)))?;
    let truth = Edit::insert(below_root(2, Ctor::LitTrue))?;
    check_merge(&rt, rt.alloc(), seven, truth)
}

// The state of an edge after a second edit of it is joined to the graph of the first.
fn state_after(alloc: Global, first: Edit, second: Edit) -> Result<State, NoMemory> {
    let mut graph = graph_of(alloc, HashSeed::FIXED, &[first])?;
    join_edits(alloc, &mut graph, &[second])?;
    Ok(graph.state(&first.edge()))
}

#[test]
fn a_deletion_joins_an_insertion(rt: HostRuntime) -> Result<(), Fail> {
    let edge = below_root(1, Ctor::Num(7));
    let insertion = Edit::insert(edge)?;
    let deletion = Edit::delete(edge)?;
    assert!(rt; state_after(rt.alloc(), insertion, deletion)? == State::Deleted);
    assert!(rt; state_after(rt.alloc(), deletion, insertion)? == State::Deleted);
    Ok(())
}
