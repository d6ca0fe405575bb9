ghost use Rattle.std.specs.Prelude.{◌≡◌, ◌+◌, ◌<◌, ◌≤◌, OnSome};
ghost use Rattle.graph_words.specs.Walk.{above};

use crate::few::{Few, ParentOf};
use crate::steps::Steps;
use grove_edits::Vertex;
use std::sync::ledger::Ledger;

/// The source of the one live parent edge, if there is exactly one.
pub fn vertex_above<P: ParentOf, L: Ledger>(
    vertex: &Vertex,
    parents: &P,
    steps: &mut Steps<L>,
) -> Option<Vertex>
    ensures above { result ≡ above (P.live parents.now) vertex.now }
    ensures ticks { steps.new ≤ steps.old + 3 }
    ensures ticks_where_above { OnSome result (steps.new ≡ steps.old + 2) }
{
    match parents.few(vertex, steps) {
        Few::One(edge) => Some(edge.source),
        Few::Zero | Few::More(_, _) => None,
    }
}
