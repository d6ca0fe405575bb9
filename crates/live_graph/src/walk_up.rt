ghost use Rattle.std.specs.Prelude.{◌≡◌, true, Some, IfSome, map};
ghost use Rattle.std.specs.Option.{option_map};
ghost use Rattle.grove_edits.specs.Edge.{edge_cmp};
ghost use Rattle.graph_words.specs.Walk.{above, only_source};
ghost use Rattle.graph_words.specs.Cycle.{leads_to};
ghost use Rattle.edge_numbers.specs.Numbered.{edge_at, vertex_at, IsVertexNumber};
ghost use Rattle.edge_lists.specs.Lists.{AreEdgeNumbers};
ghost use Rattle.live_graph.specs.Around.{AreAround, target_of};
ghost use Rattle.live_graph.specs.Kept.{IsParentCount};
ghost use Rattle.live_graph.specs.Live.{live};

use crate::neighbours::parents_of_number;
use edge_lists::{ByEdge, EdgeLists, LentNumbers};
use edge_numbers::EdgeNumbers;
use grove_edits::{Vertex, is_same_vertex};

// The number of the source of a list's one edge.
fn only_source_of(edges: &EdgeNumbers, numbers: &LentNumbers<'_>) -> Option<usize>
    requires { AreEdgeNumbers edges.now numbers.now }
    ensures number { IfSome result (IsVertexNumber edges.now) }
    ensures source { option_map (vertex_at edges.now) result ≡ only_source (map (edge_at edges.now) numbers.now) }
{
    let (number, others) = numbers.split_first()?;
    if others.is_empty() {
        Some(edges.source(number))
    } else {
        None
    }
}

// The number of the vertex above the one with a number, if there is one.
fn number_above(edges: &EdgeNumbers, parents: &EdgeLists<ByEdge>, vertex: usize) -> Option<usize>
    requires around { AreAround target_of edge_cmp edges.now parents.now }
    requires vertex { IsVertexNumber edges.now vertex }
    ensures number { IfSome result (IsVertexNumber edges.now) }
    ensures above { option_map (vertex_at edges.now) result ≡ above (live edges.now.entries) (vertex_at edges.now vertex) }
{
    let numbers = parents_of_number(edges, parents, vertex);
    only_source_of(edges, &numbers)
}

fn is_number(number: Option<usize>, at: usize) -> bool
    ensures found { result ≡ true → number ≡ Some at }
    ensures no_other { number ≡ Some at → result ≡ true }
{
    match number {
        Some(number) => number == at,
        None => false,
    }
}

// Whether a vertex stands on the walk up from the vertex with a number. The walk has at most one vertex without a live parent edge that it
// goes on from, so a longer one goes round.
fn leads_from(
    edges: &EdgeNumbers,
    parents: &EdgeLists<ByEdge>,
    parent_count: u64,
    from: usize,
    vertex: &Vertex,
) -> bool
    requires around { AreAround target_of edge_cmp edges.now parents.now }
    requires counted { IsParentCount edges.now parent_count }
    requires from { IsVertexNumber edges.now from }
    ensures { result ≡ leads_to (live edges.now.entries) (vertex_at edges.now from) vertex.now }
{
    let wanted = edges.vertex_number(vertex);
    let mut at = from;
    for _step in 0..parent_count {
        if is_number(wanted, at) {
            return true;
        }
        let Some(above) = number_above(edges, parents, at) else {
            return false;
        };
        at = above;
    }
    is_number(wanted, at)
}

/// Whether a vertex stands on the walk up from another.
pub(crate) fn leads_to(
    edges: &EdgeNumbers,
    parents: &EdgeLists<ByEdge>,
    parent_count: u64,
    from: &Vertex,
    vertex: &Vertex,
) -> bool
    requires around { AreAround target_of edge_cmp edges.now parents.now }
    requires counted { IsParentCount edges.now parent_count }
    ensures { result ≡ leads_to (live edges.now.entries) from.now vertex.now }
{
    // The ends of what has a number are among the vertices, so nothing leads to a vertex that has none.
    let _edges = edges.edge_count();
    match edges.vertex_number(from) {
        Some(from) => leads_from(edges, parents, parent_count, from, vertex),
        None => is_same_vertex(from, vertex),
    }
}
