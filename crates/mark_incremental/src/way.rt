ghost use Rattle.std.specs.Prelude.{◌≡◌, ◌||◌, ℕ, ◌+◌, ◌*◌, ◌≤◌, List, length, IfOk};
ghost use Rattle.grove_edits.specs.declared.vertex.Vertex.{Vertex};
ghost use Rattle.grove_edits.specs.Vertex.{is_same_vertex, stands_in};
ghost use Rattle.live_graph.specs.Live.{live};
ghost use Rattle.kept_records.specs.Short.{LeadsUp};
ghost use Rattle.mark_store.specs.Places.{holds};
ghost use Rattle.mark_incremental.specs.Looking.{AreRoots};
ghost use Rattle.mark_incremental.specs.ShortWalks.{IsAboveInner};

use crate::walks_up::holds;
use graph_words::Steps;
use grove_edits::Vertex;
use live_graph::{FewEdges, LiveGraph};
use mark_store::{VertexMap, VertexSet};
use seeded_hash::HashSeed;
use std::alloc::Global;
use std::sync::ledger::Ledger;
use text_parts::NoMemory;

/// The way up from a vertex in its tree.
#[derive(Drop)]
pub(crate) struct Way {
    /// In order, without the vertex with which it begins.
    pub(crate) vertices: Vec<Vertex>,
    /// The last of them; where there are none, the vertex with which it begins.
    pub(crate) top: Vertex,
}

/// The vertex above one, if that stands in the tree of another. It ticks at most three times.
pub(crate) fn above_inner<L: Ledger>(
    vertex: &Vertex,
    graph: &LiveGraph,
    roots: &VertexMap<bool>,
    steps: &mut Steps<L>,
) -> Option<Vertex>
    requires { AreRoots (live graph.now) roots.now }
    ensures above { IsAboveInner (live graph.now) vertex.now result }
    ensures ticks { steps.new ≤ steps.old + 3 }
{
    match graph.few_parents(vertex, steps) {
        FewEdges::Zero | FewEdges::More(_, _) => None,
        FewEdges::One(edge) => {
            if holds(roots, vertex) {
                return None;
            }
            Some(*edge.source())
        }
    }
}

/// The way up from a vertex, of at most so many vertices. It ticks at most three times for each, and three times more.
pub(crate) fn way_up<L: Ledger>(
    alloc: Global,
    start: &Vertex,
    most: u64,
    graph: &LiveGraph,
    roots: &VertexMap<bool>,
    steps: &mut Steps<L>,
) -> Result<Way, NoMemory>
    requires { AreRoots (live graph.now) roots.now }
    ensures leads { IfOk result (λ way. LeadsUp (live graph.now) start.now way.vertices.items way.top) }
    ensures ticks { (longest : ℕ) → ((ws : List Vertex) (top : Vertex) → LeadsUp (live graph.now) start.now ws top → length ws ≤ longest) → steps.new ≤ steps.old + 3 * longest + 3 }
{
    let mut vertices = Vec::new(alloc);
    let mut top = *start;
    for _ in 0..most {
        let Some(next) = above_inner(&top, graph, roots, steps) else {
            return Ok(Way { vertices, top });
        };
        vertices.push(next)?;
        top = next;
    }
    Ok(Way { vertices, top })
}

/// A vertex with the way up from it, and one further vertex.
pub(crate) fn judged_with(
    alloc: Global,
    seed: HashSeed,
    start: &Vertex,
    way: &[Vertex],
    further: &Vertex,
) -> Result<VertexSet, NoMemory>
    ensures { IfOk result (λ set. (v : Vertex) → holds set v ≡ (stands_in v way.now || (is_same_vertex further.now v || is_same_vertex start.now v))) }
{
    let mut set = VertexSet::with_seed(alloc, seed);
    set.enter(start)?;
    set.enter(further)?;
    for vertex in way {
        set.enter(vertex)?;
    }
    Ok(set)
}
