ghost use Rattle.std.specs.Prelude.{◌≡◌, ◌+◌, ◌<◌, ◌≤◌, ◌^◌, true, length};
ghost use Rattle.grove_edits.specs.declared.edge.Edge.{Edge};
ghost use Rattle.grove_edits.specs.Edge.{edge_cmp};
ghost use Rattle.grove_edits.specs.Vertex.{stands_in};
ghost use Rattle.graph_words.specs.Live.{targets_of};
ghost use Rattle.edge_numbers.specs.Numbered.{edge_at, vertex_at, IsEdgeNumber, IsVertexNumber};
ghost use Rattle.graph_words.specs.States.{state_in, with_state, KeepsRoom};
ghost use Rattle.live_graph.specs.Live.{live};
ghost use Rattle.live_graph.specs.Around.{once, AreAround, IsListed, IsStateSet, target_of};
ghost use Rattle.live_graph.specs.Kept.{IsParentCount};

use crate::live_lists::set_state;
use edge_lattice::State;
use edge_lists::{ByEdge, ByPosition, EdgeLists};
use edge_numbers::EdgeNumbers;

// Whether a vertex has a live parent edge.
fn has_parent(edges: &EdgeNumbers, parents: &EdgeLists<ByEdge>, vertex: usize) -> bool
    requires around { AreAround target_of edge_cmp edges.now parents.now }
    requires vertex { IsVertexNumber edges.now vertex }
    ensures { result ≡ stands_in (vertex_at edges.now vertex) (targets_of (live edges.now.entries)) }
{
    // Nothing has two numbers.
    let _edges = edges.edge_count();
    let _vertices = edges.vertex_count();
    if vertex >= parents.vertex_count() {
        return false;
    }
    !parents.at(vertex).is_empty()
}

/// Counts what had something and now may not have it, or the other way round.
pub(crate) fn recount(count: &mut u64, had: bool, has: bool)
    requires counted { once had ≤ count.old }
    requires fits { count.old + 1 < 2 ^ 64 }
    ensures { count.new + once had ≡ count.old + once has }
{
    match (had, has) {
        (false, true) => *count += 1,
        (true, false) => *count -= 1,
        (false, false) | (true, true) => {}
    }
}

/// Gives the edge with a number a state, and counts the vertices that have a live parent edge then.
pub(crate) fn set_counted_state(
    edges: &mut EdgeNumbers,
    children: &mut EdgeLists<ByPosition>,
    parents: &mut EdgeLists<ByEdge>,
    parent_count: &mut u64,
    number: usize,
    state: State,
)
    requires listed { IsListed edges.old children.old parents.old }
    requires counted { IsParentCount edges.old parent_count.old }
    requires number { IsEdgeNumber edges.old number }
    ensures listed { IsListed edges.new children.new parents.new }
    ensures counted { IsParentCount edges.new parent_count.new }
    ensures graph { (e : Edge) → state_in edges.new.entries e ≡ with_state (edge_at edges.old number) state (state_in edges.old.entries) e }
    ensures room_stays { KeepsRoom edges.old.entries edges.new.entries }
    ensures set { IsStateSet edges.old number state edges.new }
{
    // No edge has two numbers.
    let _before = edges.edge_count();
    let target = edges.target(number);
    let had = has_parent(edges, parents, target);
    set_state(edges, children, parents, number, state);
    let _after = edges.edge_count();
    let has = has_parent(edges, parents, target);
    recount(parent_count, had, has);
}
