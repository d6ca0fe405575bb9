ghost use Rattle.std.specs.Prelude.{◌≡◌, ◌+◌, ◌<◌, ◌≤◌, None, Some, OnSome, if◌then◌else◌};
ghost use Rattle.grove_edits.specs.declared.vertex.Vertex.{Vertex};
ghost use Rattle.graph_words.specs.Walk.{above};
ghost use Rattle.unicycle_roots.specs.StepUp.{found};

use graph_words::{ParentOf, Steps, vertex_above};
use grove_edits::{Vertex, compare_vertices};
use std::cmp::Ordering;
use std::sync::ledger::Ledger;

/// What the next step of a walk finds.
#[derive(Clone, Copy, Debug)]
pub(crate) enum StepUp {
    /// A vertex that is greater than the one with which the walk began.
    ToGreater(Vertex),
    /// The vertex with which the walk began.
    Back,
    /// No vertex above, or a lesser one: the first vertex is the least of no cycle.
    ToNoCycle,
}

/// Steps up from a vertex on the walk that began with `first`.
pub(crate) fn step_up<P: ParentOf, L: Ledger>(
    first: &Vertex,
    from: &Vertex,
    parents: &P,
    steps: &mut Steps<L>,
) -> StepUp
    ensures found { result ≡ found first.now (above (P.live parents.now) from.now) }
    ensures ticks { steps.new ≤ steps.old + 3 }
    ensures ticks_where_greater { (x : Vertex) → result ≡ StepUp.ToGreater x → steps.new ≡ steps.old + 2 }
{
    let Some(above) = vertex_above(from, parents, steps) else {
        return StepUp::ToNoCycle;
    };
    match compare_vertices(first, &above) {
        Ordering::Less => StepUp::ToGreater(above),
        Ordering::Equal => StepUp::Back,
        Ordering::Greater => StepUp::ToNoCycle,
    }
}
