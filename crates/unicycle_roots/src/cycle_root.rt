ghost use Rattle.std.specs.Prelude.{◌≡◌, ◌+◌, ◌*◌, ◌≤◌, length};
ghost use Rattle.graph_words.specs.Walk.{walk};
ghost use Rattle.graph_words.specs.Class.{is_cycle_root};

use crate::step_up::{StepUp, step_up};
use graph_words::{ParentOf, Steps, vertex_above};
use grove_edits::{Vertex, is_same_vertex};
use std::sync::ledger::Ledger;

/// Whether the walk up comes back to the vertex, which is the least on it. The hare goes two steps while the tortoise goes one,
/// so they meet where the walk enters a cycle that the vertex is not on.
pub(crate) fn is_cycle_root<P: ParentOf, L: Ledger>(
    vertex: &Vertex,
    parents: &P,
    steps: &mut Steps<L>,
) -> bool
    ensures root { result ≡ is_cycle_root (P.live parents.now) vertex.now }
    ensures ticks { steps.new ≤ steps.old + 6 * length (walk (P.live parents.now) vertex.now) }
{
    let mut tortoise = *vertex;
    let mut hare = *vertex;
    loop {
        hare = match step_up(vertex, &hare, parents, steps) {
            StepUp::ToGreater(above) => above,
            StepUp::Back => return true,
            StepUp::ToNoCycle => return false,
        };
        hare = match step_up(vertex, &hare, parents, steps) {
            StepUp::ToGreater(above) => above,
            StepUp::Back => return true,
            StepUp::ToNoCycle => return false,
        };
        tortoise = match vertex_above(&tortoise, parents, steps) {
            Some(above) => above,
            None => return false,
        };
        if is_same_vertex(&tortoise, &hare) {
            return false;
        }
    }
}
