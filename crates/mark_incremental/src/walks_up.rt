ghost use Rattle.std.specs.Prelude.{◌≡◌, ◌+◌, ◌*◌, ◌≤◌, ◌||◌, ◌++◌, ◌∷◌, [], length, Some, None, IfOk, OnOk};
ghost use Rattle.grove_edits.specs.declared.vertex.Vertex.{Vertex};
ghost use Rattle.grove_edits.specs.Vertex.{is_same_vertex};
ghost use Rattle.graph_words.specs.Walk.{walk};
ghost use Rattle.graph_words.specs.Cycle.{is_on_cycle};
ghost use Rattle.mark_store.specs.Places.{holds};

use graph_words::{ParentOf, Steps, vertex_above};
use grove_edits::{Vertex, is_same_vertex};
use mark_store::{VertexMap, VertexSet};
use seeded_hash::HashSeed;
use std::alloc::Global;
use std::sync::ledger::Ledger;
use text_parts::NoMemory;

/// The vertices on the walk up from a vertex.
#[derive(Drop)]
pub(crate) struct WalkUp {
    /// In order.
    pub(crate) vertices: Vec<Vertex>,
    /// Whether the walk comes back to the vertex with which it began.
    pub(crate) comes_back: bool,
}

pub(crate) fn holds(set: &VertexMap<bool>, vertex: &Vertex) -> bool
    ensures { result ≡ holds set.now vertex.now }
{
    set.get(vertex).is_some()
}

/// The walk up from a vertex. The vertices that it passed are found by their hash under a seed. It ticks at most three times for each
/// vertex of the walk.
pub(crate) fn walk_up<P: ParentOf, L: Ledger>(
    alloc: Global,
    seed: HashSeed,
    start: &Vertex,
    parents: &P,
    steps: &mut Steps<L>,
) -> Result<WalkUp, NoMemory>
    ensures vertices { IfOk result (λ it. it.vertices.items ≡ walk (P.live parents.now) start.now) }
    ensures comes_back { IfOk result (λ it. it.comes_back ≡ is_on_cycle (P.live parents.now) start.now) }
    ensures ticks { steps.new ≤ steps.old + 3 * length (walk (P.live parents.now) start.now) }
{
    let mut vertices = Vec::new(alloc);
    let mut passed = VertexSet::with_seed(alloc, seed);
    let mut at = *start;
    vertices.push(at)?;
    passed.enter(&at)?;
    for _ in 0..u64::MAX {
        let Some(next) = vertex_above(&at, parents, steps) else {
            return Ok(WalkUp {
                vertices,
                comes_back: false,
            });
        };
        if passed.holds(&next) {
            return Ok(WalkUp {
                vertices,
                comes_back: is_same_vertex(&next, start),
            });
        }
        at = next;
        vertices.push(at)?;
        passed.enter(&at)?;
    }
    // A walk is no longer than memory.
    Err(NoMemory)
}
