ghost use Rattle.std.specs.Prelude.{◌≡◌, ◌<◌, ◌^◌, []};
ghost use Rattle.edge_numbers.specs.Numbered.{IsEdgeNumber};
ghost use Rattle.edge_lists.specs.Lists.{numbers_at, places_at, HasVertex};

use edge_lists::*;
use edge_numbers::EdgeNumbers;
use grove_edits::Edge;
use std::process::Abort;
use std::test::Fail;

// Puts the first edge at the vertex.
fn put_first(lists: &mut EdgeLists<ByPosition>, edge: usize, edges: &EdgeNumbers)
    requires vertex { HasVertex lists.old 0 }
    requires numbers { numbers_at lists.old 0 ≡ [] }
    requires place { 0 < places_at lists.old 0 }
    requires edge { IsEdgeNumber edges.now edge }
    requires fits { edge < 2 ^ 32 }
    ensures { HasVertex lists.new 0 }
{
    lists.put(0, edge, edges);
}

// Enters an edge, and lists it at a first vertex.
fn check_first<R: Abort>(
    rt: &R,
    edges: &mut EdgeNumbers,
    lists: &mut EdgeLists<ByPosition>,
) -> Result<(), Fail>
    requires { lists.old ≡ [] }
{
    let edge = Edge::default();
    let source = edges.enter_vertex(&edge.source)?;
    let target = edges.enter_vertex(&edge.target)?;
    let number = edges.enter(&edge, source, target)?;
    assert!(rt; number == 0);
    lists.add_vertex()?;
    lists.promise(0)?;
    put_first(lists, number, edges);
    assert!(rt; lists.at(0).len() == 1);
    assert!(rt; lists.at(0).get(0) == Some(0));
    Ok(())
}

#[test]
fn an_edge_is_listed_by_its_number(rt: HostRuntime) -> Result<(), Fail> {
    let mut edges = EdgeNumbers::new(rt.alloc());
    let mut lists = EdgeLists::<ByPosition>::new(rt.alloc());
    check_first(&rt, &mut edges, &mut lists)
}

#[test]
fn a_new_vertex_has_no_edges(rt: HostRuntime) -> Result<(), Fail> {
    let mut lists = EdgeLists::<ByEdge>::new(rt.alloc());
    lists.add_vertex()?;
    assert!(rt; lists.vertex_count() == 1);
    assert!(rt; lists.at(0).len() == 0);
    Ok(())
}
