ghost use Rattle.std.specs.Prelude.{◌≡◌, ◌+◌, ◌*◌, ◌≤◌, ◌||◌, length, IfOk, OnOk};
ghost use Rattle.grove_edits.specs.declared.vertex.Vertex.{Vertex};
ghost use Rattle.grove_edits.specs.Vertex.{is_same_vertex, stands_in};
ghost use Rattle.graph_words.specs.Walk.{walk};
ghost use Rattle.mark_store.specs.Places.{holds};
ghost use Rattle.mark_incremental.specs.Passing.{AreWalks, HoldsThese};

use crate::walks_up::{WalkUp, walk_up};
use graph_words::{ParentOf, Steps};
use grove_edits::{Edge, Vertex};
use mark_store::VertexSet;
use seeded_hash::HashSeed;
use std::alloc::Global;
use std::sync::ledger::Ledger;
use text_parts::NoMemory;

/// The walks up from both ends of an edge.
#[derive(Drop)]
pub(crate) struct Ends {
    pub(crate) source: WalkUp,
    pub(crate) target: WalkUp,
}

/// The walks up from the ends of an edge. It ticks at most three times for each vertex of a walk.
pub(crate) fn walk_from_ends<P: ParentOf, L: Ledger>(
    alloc: Global,
    seed: HashSeed,
    edge: &Edge,
    parents: &P,
    steps: &mut Steps<L>,
) -> Result<Ends, NoMemory>
    ensures walks { IfOk result (AreWalks (P.live parents.now) edge.now) }
    ensures ticks { steps.new ≤ steps.old + 3 * (length (walk (P.live parents.now) edge.now.source) + length (walk (P.live parents.now) edge.now.target)) }
{
    let source = walk_up(alloc, seed, &edge.source, parents, steps)?;
    let target = walk_up(alloc, seed, &edge.target, parents, steps)?;
    Ok(Ends { source, target })
}

/// Vertices, each once.
#[derive(Drop)]
pub(crate) struct Passed {
    pub(crate) set: VertexSet,
    pub(crate) vertices: Vec<Vertex>,
}

// Adds a vertex, which may be there already.
fn add(passed: &mut Passed, vertex: &Vertex) -> Result<(), NoMemory>
    requires { HoldsThese passed.old.set passed.old.vertices.items }
    ensures added { OnOk result ((v : Vertex) → holds passed.new.set v ≡ (is_same_vertex vertex.now v || holds passed.old.set v)) }
    ensures these { OnOk result (HoldsThese passed.new.set passed.new.vertices.items) }
{
    if passed.set.holds(vertex) {
        return Ok(());
    }
    passed.vertices.push(*vertex)?;
    passed.set.enter(vertex)
}

fn add_all(passed: &mut Passed, vertices: &[Vertex]) -> Result<(), NoMemory>
    requires { HoldsThese passed.old.set passed.old.vertices.items }
    ensures added { OnOk result ((v : Vertex) → holds passed.new.set v ≡ (stands_in v vertices.now || holds passed.old.set v)) }
    ensures these { OnOk result (HoldsThese passed.new.set passed.new.vertices.items) }
{
    for vertex in vertices {
        add(passed, vertex)?;
    }
    Ok(())
}

/// The vertices on the walks up from the ends of an edge in two graphs.
pub(crate) fn passed_by(
    alloc: Global,
    seed: HashSeed,
    before: &Ends,
    after: &Ends,
) -> Result<Passed, NoMemory>
    ensures passed { IfOk result (λ it. (v : Vertex) → holds it.set v
        ≡ ((stands_in v before.now.source.vertices.items || stands_in v before.now.target.vertices.items) || (stands_in v after.now.source.vertices.items || stands_in v after.now.target.vertices.items))) }
    ensures these { IfOk result (λ it. HoldsThese it.set it.vertices.items) }
{
    let mut passed = Passed {
        set: VertexSet::with_seed(alloc, seed),
        vertices: Vec::new(alloc),
    };
    add_all(&mut passed, &before.source.vertices)?;
    add_all(&mut passed, &before.target.vertices)?;
    add_all(&mut passed, &after.source.vertices)?;
    add_all(&mut passed, &after.target.vertices)?;
    Ok(passed)
}

/// The vertices on the walk up from the source of an edge, its target, and one further vertex.
pub(crate) fn passed_with(
    alloc: Global,
    seed: HashSeed,
    source: &WalkUp,
    target: &Vertex,
    further: &Vertex,
) -> Result<Passed, NoMemory>
    ensures passed { IfOk result (λ it. (v : Vertex) → holds it.set v
        ≡ (is_same_vertex further.now v || (is_same_vertex target.now v || stands_in v source.now.vertices.items))) }
    ensures these { IfOk result (λ it. HoldsThese it.set it.vertices.items) }
{
    let mut passed = Passed {
        set: VertexSet::with_seed(alloc, seed),
        vertices: Vec::new(alloc),
    };
    add_all(&mut passed, &source.vertices)?;
    add(&mut passed, target)?;
    add(&mut passed, further)?;
    Ok(passed)
}
