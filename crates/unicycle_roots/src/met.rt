ghost use Rattle.std.specs.Prelude.{◌≡◌, ◌+◌, ◌*◌, ◌≤◌, None, Some, if◌then◌else◌, IsSome, IfOk, OnOk, OnErr};
ghost use Rattle.grove_edits.specs.declared.vertex.Vertex.{Vertex};
ghost use Rattle.grove_edits.specs.Vertex.{is_same_vertex};
ghost use Rattle.graph_words.specs.Met.{met_by, unmet, round_len, KeepsMet, AreNumbered, HasEnded};

use graph_words::{ParentOf, Steps, vertex_above};
use grove_edits::Vertex;
use std::collections::BTreeMap;
use std::sync::ledger::Ledger;
use text_parts::NoMemory;

/// The number of the walk that met a vertex first.
fn met_by(met: &BTreeMap<Vertex, usize>, vertex: &Vertex) -> Option<usize>
    ensures { result ≡ met_by met.now.entries vertex.now }
{
    met.get(vertex).copied()
}

/// Gives a vertex a number.
fn enter(met: &mut BTreeMap<Vertex, usize>, vertex: &Vertex, number: usize) -> Result<(), NoMemory>
    ensures { OnOk result ((v : Vertex) → met_by met.new.entries v ≡ (if is_same_vertex vertex.now v then Some number else met_by met.old.entries v)) }
{
    met.insert(*vertex, number)?;
    Ok(())
}

/// Walks up from a vertex until no vertex is above, or until one was met already, and gives the number to those that it meets
/// first. It answers the vertex to which it came back, if it met that one itself.
pub(crate) fn walk_up<P: ParentOf, L: Ledger>(
    start: &Vertex,
    number: usize,
    met: &mut BTreeMap<Vertex, usize>,
    parents: &P,
    steps: &mut Steps<L>,
) -> Result<Option<Vertex>, NoMemory>
    requires { AreNumbered number met.old.entries }
    ensures start { OnOk result (IsSome (met_by met.new.entries start.now)) }
    ensures kept { OnOk result (KeepsMet number met.old.entries met.new.entries) }
    ensures ended { IfOk result (λ back. HasEnded (P.live parents.now) number met.old.entries met.new.entries back) }
    ensures round { IfOk result (λ back. round_len (P.live parents.now) back + unmet (P.live parents.now) met.new.entries ≤ unmet (P.live parents.now) met.old.entries) }
    ensures ticks { OnOk result (steps.new + 2 * unmet (P.live parents.now) met.new.entries ≤ steps.old + 2 * unmet (P.live parents.now) met.old.entries + 3) }
    ensures ticks_on_err { OnErr result (steps.new ≤ steps.old + 2 * unmet (P.live parents.now) met.old.entries) }
{
    let mut at = *start;
    loop {
        if let Some(walk) = met_by(met, &at) {
            return Ok(if walk == number { Some(at) } else { None });
        }
        enter(met, &at, number)?;
        let Some(above) = vertex_above(&at, parents, steps) else {
            return Ok(None);
        };
        at = above;
    }
}
