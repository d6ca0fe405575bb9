ghost use Rattle.std.specs.Prelude.{◌≡◌, ◌+◌, ◌*◌, ◌≤◌, true, length};
ghost use Rattle.graph_words.specs.Walk.{walk};
ghost use Rattle.graph_words.specs.Class.{is_cycle_root};
ghost use Rattle.graph_words.specs.Cycle.{is_on_cycle, leads_to};

use graph_words::{ParentOf, Steps, lesser, vertex_above};
use grove_edits::{Vertex, is_same_vertex};
use std::sync::ledger::Ledger;

/// The root of the cycle on which a vertex stands, by going round once.
pub(crate) fn root_of_cycle<P: ParentOf, L: Ledger>(
    entry: &Vertex,
    parents: &P,
    steps: &mut Steps<L>,
) -> Vertex
    requires { is_on_cycle (P.live parents.now) entry.now ≡ true }
    ensures root { is_cycle_root (P.live parents.now) result ≡ true }
    ensures above { leads_to (P.live parents.now) entry.now result ≡ true }
    ensures ticks { steps.new ≤ steps.old + 2 * length (walk (P.live parents.now) entry.now) }
{
    let mut least = *entry;
    let mut at = *entry;
    while let Some(above) = vertex_above(&at, parents, steps) {
        if is_same_vertex(&above, entry) {
            return least;
        }
        least = lesser(&least, &above);
        at = above;
    }
    least
}
