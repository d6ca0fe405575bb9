ghost use Rattle.std.specs.Prelude.{◌≡◌, ℕ, ◌+◌, ◌*◌, ◌≤◌, IsTrue, List, length};
ghost use Rattle.grove_edits.specs.declared.vertex.Vertex.{Vertex};
ghost use Rattle.grove_edits.specs.declared.edge.Edge.{Edge};
ghost use Rattle.graph_words.specs.Few.{first_two};
ghost use Rattle.graph_words.specs.Live.{parents_of};
ghost use Rattle.live_graph.specs.Live.{live};
ghost use Rattle.kept_records.specs.Short.{LeadsUp};
ghost use Rattle.mark_incremental.specs.Looking.{AreRoots};
ghost use Rattle.mark_incremental.specs.ShortWalks.{IsLeaf, IsNotPassed, IsApart, IsLedFrom, IsHeadAlike, MayBeShort};

use crate::walks_up::holds;
use crate::way::above_inner;
use graph_words::{Few, Steps};
use grove_edits::{Edge, Vertex, is_same_vertex};
use grove_sorts::position_count;
use live_graph::LiveGraph;
use mark_store::{MarkStore, VertexMap};
use std::sync::ledger::Ledger;

// Whether a vertex has no graph, since it has no positions or is no vertex of the graph.
fn is_leaf(vertex: &Vertex, records: &MarkStore) -> bool
    ensures { IsTrue result → IsLeaf records.now vertex.now }
{
    position_count(&vertex.ctor) == 0 || records.get(vertex).is_none()
}

// Whether the way up from a source passes no target, and ends where nothing is above. It ticks at most three times for each vertex of
// the way, and three times more.
fn passes_by<L: Ledger>(
    target: &Vertex,
    source: &Vertex,
    graph: &LiveGraph,
    roots: &VertexMap<bool>,
    steps: &mut Steps<L>,
) -> bool
    requires rooted { AreRoots (live graph.now) roots.now }
    requires other { target.now ≡ source.now → ⊥ }
    ensures passes { IsTrue result → IsNotPassed (live graph.now) target.now source.now }
    ensures ticks { (longest : ℕ) → ((ws : List Vertex) (top : Vertex) → LeadsUp (live graph.now) source.now ws top → length ws ≤ longest) → steps.new ≤ steps.old + 3 * longest + 3 }
{
    let mut at = *source;
    for _ in 0..u64::MAX {
        let Some(next) = above_inner(&at, graph, roots, steps) else {
            return !holds(roots, &at);
        };
        if is_same_vertex(&next, target) {
            return false;
        }
        at = next;
    }
    false
}

/// Whether a target is not above a source, as far as that is found out: it has no graph, or the way up from the source passes it
/// nowhere. It ticks at most three times for each vertex of the way, and three times more.
pub(crate) fn is_apart<L: Ledger>(
    target: &Vertex,
    source: &Vertex,
    records: &MarkStore,
    graph: &LiveGraph,
    roots: &VertexMap<bool>,
    steps: &mut Steps<L>,
) -> bool
    requires { AreRoots (live graph.now) roots.now }
    ensures apart { IsTrue result → IsApart (live graph.now) records.now target.now source.now }
    ensures ticks { (longest : ℕ) → ((ws : List Vertex) (top : Vertex) → LeadsUp (live graph.now) source.now ws top → length ws ≤ longest) → steps.new ≤ steps.old + 3 * longest + 3 }
{
    if is_same_vertex(target, source) {
        return false;
    }
    if is_leaf(target, records) {
        return true;
    }
    passes_by(target, source, graph, roots, steps)
}

// Whether there is no other parent.
fn is_from(few: &Few, source: &Vertex) -> bool
    ensures { (e : Edge) (edges : List Edge) → few.now ≡ first_two (parents_of e.target edges) → source.now ≡ e.source → IsTrue result → IsLedFrom e edges }
{
    match few {
        Few::Zero => true,
        Few::One(edge) => is_same_vertex(&edge.source, source),
        Few::More(_, _) => false,
    }
}

/// Whether there is no parent both times, or several both times.
pub(crate) fn are_alike(before: &Few, after: &Few) -> bool
    ensures { (v : Vertex) (old new : List Edge) → before.now ≡ first_two (parents_of v old) → after.now ≡ first_two (parents_of v new) → IsTrue result → IsHeadAlike v old new }
{
    match (before, after) {
        (Few::Zero, Few::Zero) | (Few::More(_, _), Few::More(_, _)) => true,
        _ => false,
    }
}

/// Whether the source of an edge alone sees what an edit makes of its target, which had these parents before it and has those after
/// it, and no root of a cycle comes or goes. The target may be known not to have been above the source.
pub(crate) fn may_be_short(edge: &Edge, apart: bool, before: &Few, after: &Few) -> bool
    ensures { (old new : List Edge) → before.now ≡ first_two (parents_of edge.now.target old) → after.now ≡ first_two (parents_of edge.now.target new) → IsTrue result → MayBeShort edge.now apart old new }
{
    if are_alike(before, after) {
        return true;
    }
    apart && is_from(before, &edge.source) && is_from(after, &edge.source)
}
