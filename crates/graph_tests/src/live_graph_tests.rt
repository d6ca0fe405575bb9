ghost use Rattle.std.specs.Prelude.{◌≡◌, ◌<◌};

use edge_lattice::State;
use graph_words::{Few, ParentOf, Steps};
use grove_edits::{Edge, Edit, EditKind, EditList, Vertex};
use grove_names::Name;
use grove_sorts::{Ctor, Position};
use live_graph::*;
use std::alloc::Global;
use std::marker::Brand;
use std::process::Abort;
use std::sync::ledger::{Blank, Ledger};
use std::test::Fail;

fn edge(counter: u64, child: u64) -> Edge {
    Edge {
        name: Name { author: 1, counter },
        source: Vertex::ROOT,
        position: Position::Main,
        target: Vertex {
            name: Name {
                author: 1,
                counter: child,
            },
            ctor: Ctor::Num(7),
        },
    }
}

// What an edit changes, once there is room for it, or None where its edge is not well formed.
fn raise(graph: &mut LiveGraph, kind: EditKind, edge: Edge) -> Result<Option<Change>, NoMemory> {
    let Ok(edit) = Edit::new(kind, edge) else {
        return Ok(None);
    };
    graph.make_room(&edit.edge())?;
    Ok(Some(graph.raise(&edit)))
}

fn put_back(graph: &mut LiveGraph, edge: &Edge, old: State) -> Result<(), NoMemory> {
    graph.make_room(edge)?;
    graph.put_back(edge, old);
    Ok(())
}

// What an edit changes by the number of its edge, and the state there then.
fn raise_at(
    graph: &mut LiveGraph,
    kind: EditKind,
    edge: &Edge,
) -> Result<(Change, State), NoMemory> {
    let number = graph.make_room(edge)?;
    let change = graph.raise_at(number, kind);
    Ok((change, graph.state(edge)))
}

// An edit of an edge, or room for it alone where no kind is given.
fn step(graph: &mut LiveGraph, kind: Option<EditKind>, edge: Edge) -> Result<(), NoMemory> {
    if let Some(kind) = kind {
        raise(graph, kind, edge)?;
        return Ok(());
    }
    graph.make_room(&edge)?;
    Ok(())
}

fn graph_of(alloc: Global, steps: &[(Option<EditKind>, Edge)]) -> Result<LiveGraph, NoMemory> {
    let mut graph = LiveGraph::new(alloc);
    for (kind, edge) in steps {
        step(&mut graph, *kind, *edge)?;
    }
    Ok(graph)
}

// What each of three edits of one edge changes.
fn rises(graph: &mut LiveGraph) -> Result<[Option<Change>; 3], NoMemory> {
    let first = raise(graph, EditKind::Insert, edge(1, 5))?;
    let again = raise(graph, EditKind::Insert, edge(1, 5))?;
    let gone = raise(graph, EditKind::Delete, edge(1, 5))?;
    Ok([first, again, gone])
}

// The states of that edge, once it was deleted and once it is put back.
fn states_put_back(graph: &mut LiveGraph) -> Result<(State, State), NoMemory> {
    let deleted = graph.state(&edge(1, 5));
    put_back(graph, &edge(1, 5), State::Live)?;
    Ok((deleted, graph.state(&edge(1, 5))))
}

fn rises_and_states(
    graph: &mut LiveGraph,
) -> Result<([Option<Change>; 3], (State, State)), NoMemory> {
    let changes = rises(graph)?;
    let states = states_put_back(graph)?;
    Ok((changes, states))
}

fn rises_of_new(alloc: Global) -> Result<([Option<Change>; 3], (State, State)), NoMemory> {
    let mut graph = LiveGraph::new(alloc);
    rises_and_states(&mut graph)
}

#[test]
fn an_edge_rises_and_is_put_back(rt: HostRuntime) -> Result<(), Fail> {
    let (changes, states) = rises_of_new(rt.alloc())?;
    let first = Some(Change::Raised { old: State::Absent });
    let gone = Some(Change::Raised { old: State::Live });
    assert!(rt; changes == [first, Some(Change::Same), gone]);
    assert!(rt; states == (State::Deleted, State::Live));
    Ok(())
}

// What three edits of two edges change by number, and the states then.
fn rises_by_number(graph: &mut LiveGraph) -> Result<[(Change, State); 3], NoMemory> {
    let first = raise_at(graph, EditKind::Insert, &edge(1, 5))?;
    let other = raise_at(graph, EditKind::Delete, &edge(1, 6))?;
    let again = raise_at(graph, EditKind::Insert, &edge(1, 6))?;
    Ok([first, other, again])
}

// The same, and the numbers then of the second edge and of one that no edit named.
fn numbered(
    graph: &mut LiveGraph,
) -> Result<([(Change, State); 3], Option<usize>, Option<usize>), NoMemory> {
    let changes = rises_by_number(graph)?;
    let second = graph.number(&edge(1, 6));
    let none = graph.number(&edge(2, 5));
    Ok((changes, second, none))
}

fn numbered_of_new(
    alloc: Global,
) -> Result<([(Change, State); 3], Option<usize>, Option<usize>), NoMemory> {
    let mut graph = LiveGraph::new(alloc);
    numbered(&mut graph)
}

#[test]
fn an_edge_rises_by_its_number(rt: HostRuntime) -> Result<(), Fail> {
    let (changes, second, none) = numbered_of_new(rt.alloc())?;
    let raised = Change::Raised { old: State::Absent };
    let wanted = [
        (raised, State::Live),
        (raised, State::Deleted),
        (Change::Same, State::Deleted),
    ];
    assert!(rt; changes == wanted);
    assert!(rt; second == Some(1));
    assert!(rt; none == None);
    Ok(())
}

fn check_states<R: Abort>(rt: &R, graph: &LiveGraph) {
    assert!(rt; graph.state(&edge(1, 5)) == State::Live);
    assert!(rt; graph.state(&edge(1, 6)) == State::Deleted);
    assert!(rt; graph.state(&edge(2, 5)) == State::Absent);
}

#[test]
fn edges_of_one_name_have_states_of_their_own(rt: HostRuntime) -> Result<(), Fail> {
    let steps = [
        (Some(EditKind::Insert), edge(1, 5)),
        (Some(EditKind::Delete), edge(1, 6)),
    ];
    let graph = graph_of(rt.alloc(), steps.as_slice())?;
    check_states(&rt, &graph);
    Ok(())
}

// The edges named 1.1 of a graph.
fn first_named(alloc: Global, steps: &[(Option<EditKind>, Edge)]) -> Result<Vec<Edge>, NoMemory> {
    let graph = graph_of(alloc, steps)?;
    let first = Name {
        author: 1,
        counter: 1,
    };
    graph.edges_named(alloc, first)
}

// Two edges share a name, and a third is only given room.
fn steps_of_one_name() -> [(Option<EditKind>, Edge); 4] {
    [
        (Some(EditKind::Delete), edge(1, 6)),
        (Some(EditKind::Insert), edge(1, 5)),
        (Some(EditKind::Insert), edge(2, 7)),
        (None, edge(1, 4)),
    ]
}

#[test]
fn edges_are_found_by_their_name(rt: HostRuntime) -> Result<(), Fail> {
    let found = first_named(rt.alloc(), &steps_of_one_name())?;
    assert!(rt; found.as_slice() == [edge(1, 5), edge(1, 6)].as_slice());
    Ok(())
}

// The target of an edge with another constructor.
fn other_target() -> Vertex {
    Vertex {
        name: edge(1, 5).target.name,
        ctor: Ctor::Plus,
    }
}

// The vertices with the name of that target.
fn named_in(alloc: Global, steps: &[(Option<EditKind>, Edge)]) -> Result<Named, NoMemory> {
    let graph = graph_of(alloc, steps)?;
    Ok(graph.vertices_named(edge(1, 5).target.name))
}

fn named_root(alloc: Global) -> Named {
    let graph = LiveGraph::new(alloc);
    graph.vertices_named(Vertex::ROOT.name)
}

#[test]
fn the_root_is_found_by_its_name(rt: HostRuntime) -> Result<(), Fail> {
    let found = named_root(rt.alloc());
    assert!(rt; found == Named::One(Vertex::ROOT));
    Ok(())
}

#[test]
fn room_makes_no_vertex(rt: HostRuntime) -> Result<(), Fail> {
    let found = named_in(rt.alloc(), &[(None, edge(1, 5))])?;
    assert!(rt; found == Named::Zero);
    Ok(())
}

#[test]
fn a_vertex_is_found_by_its_name(rt: HostRuntime) -> Result<(), Fail> {
    let found = named_in(rt.alloc(), &[(Some(EditKind::Insert), edge(1, 5))])?;
    assert!(rt; found == Named::One(edge(1, 5).target));
    Ok(())
}

// Two edges whose targets share a name.
fn steps_to_namesakes() -> [(Option<EditKind>, Edge); 2] {
    let second = Edge {
        target: other_target(),
        ..edge(2, 5)
    };
    [
        (Some(EditKind::Insert), edge(1, 5)),
        (Some(EditKind::Insert), second),
    ]
}

// Two vertices that share a name, the lesser one first.
fn both(one: Vertex, other: Vertex) -> Named {
    if one < other {
        Named::More(one, other)
    } else {
        Named::More(other, one)
    }
}

#[test]
fn two_vertices_are_found_by_their_name(rt: HostRuntime) -> Result<(), Fail> {
    let found = named_in(rt.alloc(), &steps_to_namesakes())?;
    assert!(rt; found == both(other_target(), edge(1, 5).target));
    Ok(())
}

// The greatest counter of an author, and that of one who made no name.
fn greatest_in(graph: &LiveGraph) -> (u64, u64) {
    (graph.greatest(1), graph.greatest(2))
}

// Two edges, one of them deleted, and room for a third.
fn steps_of_one_author() -> [(Option<EditKind>, Edge); 3] {
    [
        (Some(EditKind::Delete), edge(3, 5)),
        (Some(EditKind::Insert), edge(4, 2)),
        (None, edge(9, 9)),
    ]
}

// The greatest counters before and after the first of these edges is put back.
fn greatest_around(graph: &mut LiveGraph) -> Result<((u64, u64), (u64, u64)), NoMemory> {
    let before = greatest_in(graph);
    put_back(graph, &edge(3, 5), State::Absent)?;
    Ok((before, greatest_in(graph)))
}

fn greatest_counters(alloc: Global) -> Result<((u64, u64), (u64, u64)), NoMemory> {
    let mut graph = graph_of(alloc, &steps_of_one_author())?;
    greatest_around(&mut graph)
}

#[test]
fn the_greatest_counter_is_told(rt: HostRuntime) -> Result<(), Fail> {
    let (before, after) = greatest_counters(rt.alloc())?;
    assert!(rt; before == (5, 0));
    assert!(rt; after == (4, 0));
    Ok(())
}

fn check_edits<R: Abort>(rt: &R, edits: &[Edit]) -> Result<(), Fail> {
    let first = Edit::delete(edge(1, 5))?;
    let second = Edit::insert(edge(2, 6))?;
    assert!(rt; edits == [first, second].as_slice());
    Ok(())
}

// Two edges, one of them deleted, and room for a third, which come in no order.
fn steps_out_of_order() -> [(Option<EditKind>, Edge); 3] {
    [
        (Some(EditKind::Insert), edge(2, 6)),
        (Some(EditKind::Delete), edge(1, 5)),
        (None, edge(3, 4)),
    ]
}

fn edits_in_order(alloc: Global) -> Result<EditList, NoMemory> {
    let graph = graph_of(alloc, &steps_out_of_order())?;
    graph.in_order(alloc)
}

fn vertices_in_order(alloc: Global) -> Result<Vec<Vertex>, NoMemory> {
    let graph = graph_of(alloc, &steps_out_of_order())?;
    graph.vertices(alloc)
}

#[test]
fn a_graph_lists_its_edits_and_vertices(rt: HostRuntime) -> Result<(), Fail> {
    let edits = edits_in_order(rt.alloc())?;
    check_edits(&rt, edits.as_slice())?;
    let vertices = vertices_in_order(rt.alloc())?;
    let wanted = [Vertex::ROOT, edge(1, 5).target, edge(2, 6).target];
    assert!(rt; vertices.as_slice() == wanted.as_slice());
    Ok(())
}

fn check_root_children<L: Ledger, R: Abort>(rt: &R, blank: Blank, graph: &LiveGraph)
    requires name { blank.name ≡ L.name }
    requires parts { blank.parts ≡ L.parts }
    requires some { 0 < blank.parts }
{
    let mut steps = Steps::<L>::new(blank);
    let children = graph.children(&Vertex::ROOT, Position::Main, &mut steps);
    assert!(rt; !children.is_empty());
    assert!(rt; children.first() == Some(edge(1, 5)));
    let Some((first, others)) = children.split_first() else {
        return;
    };
    assert!(rt; first.edge() == edge(1, 5));
    assert!(rt; *first.target() == edge(1, 5).target);
    assert!(rt; others.get(0) == Some(edge(2, 6)));
    assert!(rt; others.len() == 1);
    let parents = graph.few(&edge(1, 5).target, &mut steps);
    assert!(rt; parents == Few::One(edge(1, 5)));
}

fn check_children<R: Abort>(rt: &R, graph: &LiveGraph) {
    check_root_children::<Brand, R>(rt, Blank::new(1), graph)
}

fn steps_of_two_edges() -> [(Option<EditKind>, Edge); 2] {
    [
        (Some(EditKind::Insert), edge(2, 6)),
        (Some(EditKind::Insert), edge(1, 5)),
    ]
}

fn check_told<R: Abort>(rt: &R, alloc: Global) -> Result<(), NoMemory> {
    let graph = graph_of(alloc, &steps_of_two_edges())?;
    check_children(rt, &graph);
    Ok(())
}

#[test]
fn edges_are_told_one_by_one(rt: HostRuntime) -> Result<(), Fail> {
    check_told(&rt, rt.alloc())?;
    Ok(())
}

fn check_seven<L: Ledger, R: Abort>(rt: &R, blank: Blank, graph: &LiveGraph)
    requires name { blank.name ≡ L.name }
    requires parts { blank.parts ≡ L.parts }
    requires some { 0 < blank.parts }
{
    let mut steps = Steps::<L>::new(blank);
    let few = graph.few(&edge(1, 5).target, &mut steps);
    assert!(rt; few == Few::More(edge(1, 5), edge(2, 5)));
    let parents = graph.parents(&edge(1, 5).target, &mut steps);
    assert!(rt; parents.get(0) == Some(edge(1, 5)));
    assert!(rt; parents.get(1) == Some(edge(2, 5)));
    assert!(rt; parents.len() == 2);
}

fn check_parents<R: Abort>(rt: &R, graph: &LiveGraph) {
    check_seven::<Brand, R>(rt, Blank::new(1), graph)
}

fn check_both_parents<R: Abort>(rt: &R, alloc: Global) -> Result<(), NoMemory> {
    let steps = [
        (Some(EditKind::Insert), edge(2, 5)),
        (Some(EditKind::Insert), edge(1, 5)),
    ];
    let graph = graph_of(alloc, &steps)?;
    check_parents(rt, &graph);
    assert!(rt; graph.vertex_count() == 1);
    Ok(())
}

#[test]
fn both_edges_with_the_same_ends_are_told(rt: HostRuntime) -> Result<(), Fail> {
    check_both_parents(&rt, rt.alloc())?;
    Ok(())
}

// The steps of two edges, the first of which is deleted at the end.
fn steps_with_a_deletion() -> [(Option<EditKind>, Edge); 3] {
    [
        (Some(EditKind::Insert), edge(2, 6)),
        (Some(EditKind::Insert), edge(1, 5)),
        (Some(EditKind::Delete), edge(2, 6)),
    ]
}

fn vertex_count_of(alloc: Global, steps: &[(Option<EditKind>, Edge)]) -> Result<u64, NoMemory> {
    Ok(graph_of(alloc, steps)?.vertex_count())
}

#[test]
fn a_deleted_edge_leads_to_no_vertex(rt: HostRuntime) -> Result<(), Fail> {
    let before = vertex_count_of(rt.alloc(), &steps_of_two_edges())?;
    let after = vertex_count_of(rt.alloc(), &steps_with_a_deletion())?;
    assert!(rt; before == 2);
    assert!(rt; after == 1);
    Ok(())
}
