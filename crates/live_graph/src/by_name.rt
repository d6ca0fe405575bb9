ghost use Rattle.std.specs.Prelude.{◌≡◌, ℕ, ◌&&◌, ◌||◌, Some, true, length, IsTrue, IfOk, IfSome, OnOk};
ghost use Rattle.edge_numbers.specs.Numbered.{edge_at, vertex_at, IsEdgeNumber, IsVertexNumber, IsNumberOfEdge};
ghost use Rattle.std.specs.List.{list_any};
ghost use Rattle.grove_edits.specs.declared.edge.Edge.{Edge};
ghost use Rattle.grove_edits.specs.Vertex.{is_same_vertex};
ghost use Rattle.graph_words.specs.Live.{IsInEdgeOrder, holds_edge};
ghost use Rattle.edge_lists.specs.Lists.{holds_number};
ghost use Rattle.numbers_by_name.specs.ByName.{numbers_of, is_same_name};
ghost use Rattle.live_graph.specs.ByName.{is_named, is_named_edge, KeepsNames, HasEdgeNames};

use crate::whole::is_present;
use edge_numbers::EdgeNumbers;
use grove_edits::{Edge, Vertex};
use grove_names::Name;
use numbers_by_name::NumbersByName;
use std::alloc::Global;
use std::cmp::Ordering;
use text_parts::NoMemory;

/// Puts a number under a name.
pub(crate) fn add_number(
    names: &mut NumbersByName,
    name: Name,
    number: usize,
) -> Result<(), NoMemory>
    ensures kept { KeepsNames names.old names.new }
    ensures added { OnOk result (holds_number number (numbers_of names.new name) ≡ true) }
{
    let Ok(number) = u32::try_from(number) else {
        return Err(NoMemory);
    };
    names.add(name, number)?;
    Ok(())
}

/// Puts the number that the next edge gets under the name of the edge.
pub(crate) fn name_next_edge(
    edges: &EdgeNumbers,
    names: &mut NumbersByName,
    edge: &Edge,
) -> Result<(), NoMemory>
    ensures kept { KeepsNames names.old names.new }
    ensures added { OnOk result (holds_number (length edges.now.entries) (numbers_of names.new edge.now.name) ≡ true) }
{
    add_number(names, edge.name, edges.edge_count())
}

pub(crate) fn is_same_name(a: Name, b: Name) -> bool
    ensures { result ≡ is_same_name a b }
{
    a.cmp(&b) == Ordering::Equal
}

// Whether the vertex with a number is this one.
fn is_vertex(edges: &EdgeNumbers, number: usize, vertex: &Vertex) -> bool
    requires { IsVertexNumber edges.now number }
    ensures { result ≡ is_same_vertex (vertex_at edges.now number) vertex.now }
{
    edges.vertex(number) == vertex
}

fn has_ends(edges: &EdgeNumbers, number: usize, edge: &Edge) -> bool
    requires { IsEdgeNumber edges.now number }
    ensures { result ≡ (is_same_vertex (edge_at edges.now number).source edge.now.source && is_same_vertex (edge_at edges.now number).target edge.now.target) }
{
    is_vertex(edges, edges.source(number), &edge.source)
        && is_vertex(edges, edges.target(number), &edge.target)
}

// Whether the edge with a number is this edge.
fn is_edge(edges: &EdgeNumbers, number: usize, edge: &Edge) -> bool
    requires { IsEdgeNumber edges.now number }
    ensures { IsTrue result → edge_at edges.now number ≡ edge.now }
{
    if edges.position(number) == edge.position {
        is_same_name(edges.name(number), edge.name) && has_ends(edges, number, edge)
    } else {
        false
    }
}

// The edge that is sought, where it has the number.
fn at_number(edges: &EdgeNumbers, number: usize, edge: &Edge) -> Option<usize>
    ensures number { IfSome result (IsNumberOfEdge edges.now edge.now) }
    ensures only { (n : ℕ) → IsNumberOfEdge edges.now edge.now n → result ≡ Some n }
{
    // No edge has two numbers.
    let count = edges.edge_count();
    if number < count && is_edge(edges, number, edge) {
        Some(number)
    } else {
        edges.number(edge)
    }
}

/// The number of an edge that has one. Nearly every name is that of one edge, so it is mostly found by its name, and no hash is taken:
/// edges come in the order of names, so what is read is near to what was read before.
pub(crate) fn find(edges: &EdgeNumbers, names: &NumbersByName, edge: &Edge) -> Option<usize>
    requires { HasEdgeNames edges.now names.now }
    ensures number { IfSome result (IsNumberOfEdge edges.now edge.now) }
    ensures only { (n : ℕ) → IsNumberOfEdge edges.now edge.now n → result ≡ Some n }
{
    match names.with_name(edge.name) {
        [] => None,
        [number] => at_number(edges, *number as usize, edge),
        _ => edges.number(edge),
    }
}

/// Whether a number is that of an edge with a name that is not Absent.
pub(crate) fn is_named(edges: &EdgeNumbers, name: Name, number: usize) -> bool
    ensures { result ≡ is_named edges.now name number }
{
    number < edges.edge_count()
        && is_same_name(edges.name(number), name)
        && is_present(edges.state_at(number))
}

fn push_named(
    found: &mut Vec<Edge>,
    edges: &EdgeNumbers,
    name: Name,
    number: usize,
) -> Result<(), NoMemory>
    ensures { OnOk result ((e : Edge) → holds_edge e found.new.items ≡ (holds_edge e found.old.items || is_named_edge edges.now name e number)) }
{
    if !is_named(edges, name, number) {
        return Ok(());
    }
    found.push(edges.edge(number))?;
    Ok(())
}

/// Of the edges with these numbers, those with a name that are not Absent, in no order.
pub(crate) fn with_name(
    alloc: Global,
    edges: &EdgeNumbers,
    name: Name,
    numbers: &[u32],
) -> Result<Vec<Edge>, NoMemory>
    ensures { IfOk result (λ found. (e : Edge) → holds_edge e found.items ≡ list_any (is_named_edge edges.now name e) numbers.now) }
{
    let mut found = Vec::new(alloc);
    for number in numbers {
        push_named(&mut found, edges, name, *number as usize)?;
    }
    Ok(found)
}

/// Puts edges in order, and each there once.
pub(crate) fn sort_edges(edges: &mut Vec<Edge>)
    ensures in_order { IsInEdgeOrder edges.new.items }
    ensures same { (e : Edge) → holds_edge e edges.new.items ≡ holds_edge e edges.old.items }
{
    edges.sort_unstable();
    edges.dedup();
}
