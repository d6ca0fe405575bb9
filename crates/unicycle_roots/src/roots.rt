ghost use Rattle.std.specs.Prelude.{◌≡◌, ◌+◌, ◌*◌, ◌≤◌, ◌||◌, true, filter, length, IfOk, OnOk};
ghost use Rattle.grove_edits.specs.declared.vertex.Vertex.{Vertex};
ghost use Rattle.grove_edits.specs.Vertex.{is_same_vertex, stands_in};
ghost use Rattle.graph_words.specs.Class.{is_cycle_root, of_class};

use crate::cycle::root_of_cycle;
use crate::met::walk_up;
use graph_words::{Class, ParentOf, Steps};
use grove_edits::Vertex;
use std::alloc::Global;
use std::collections::{BTreeMap, BTreeSet};
use std::sync::ledger::Ledger;
use text_parts::NoMemory;

/// Whether a vertex stands in a set.
fn holds(roots: &BTreeSet<Vertex>, vertex: &Vertex) -> bool
    ensures { result ≡ stands_in vertex.now roots.now.keys }
{
    roots.contains(vertex)
}

/// Adds a vertex to a set, which may have it already.
fn add(roots: &mut BTreeSet<Vertex>, root: Vertex) -> Result<(), NoMemory>
    ensures { OnOk result ((v : Vertex) → stands_in v roots.new.keys ≡ (is_same_vertex root v || stands_in v roots.old.keys)) }
{
    roots.insert(root)?;
    Ok(())
}

/// The roots of the cycles to which the walks up from some vertices lead.
fn roots_above<P: ParentOf, L: Ledger>(
    alloc: Global,
    vertices: &[Vertex],
    parents: &P,
    steps: &mut Steps<L>,
) -> Result<BTreeSet<Vertex>, NoMemory>
    ensures roots { IfOk result (λ roots. (v : Vertex) → stands_in v vertices.now ≡ true → stands_in v roots.keys ≡ is_cycle_root (P.live parents.now) v) }
    ensures ticks { steps.new ≤ steps.old + 4 * length (P.live parents.now) + 3 * length vertices.now }
{
    let mut met = BTreeMap::new(alloc);
    let mut roots = BTreeSet::new(alloc);
    for (number, start) in vertices.iter().enumerate() {
        if let Some(entry) = walk_up(start, number, &mut met, parents, steps)? {
            add(&mut roots, root_of_cycle(&entry, parents, steps))?;
        }
    }
    Ok(roots)
}

/// Those of some vertices that stand in a set, in the order of the vertices.
fn held(
    alloc: Global,
    vertices: &[Vertex],
    roots: &BTreeSet<Vertex>,
) -> Result<Vec<Vertex>, NoMemory>
    ensures { IfOk result (λ found. found.items ≡ filter (λ v. stands_in v roots.now.keys) vertices.now) }
{
    let mut found = Vec::new(alloc);
    for vertex in vertices {
        if holds(roots, vertex) {
            found.push(*vertex)?;
        }
    }
    Ok(found)
}

/// Those of some vertices that are the roots of cycles. However long the chains above them are, it takes no more ticks than a few for
/// each live edge and each of these vertices.
pub fn cycle_roots<P: ParentOf, L: Ledger>(
    alloc: Global,
    vertices: &[Vertex],
    parents: &P,
    steps: &mut Steps<L>,
) -> Result<Vec<Vertex>, NoMemory>
    ensures roots { IfOk result (λ roots. roots.items ≡ of_class Class.Cycle (P.live parents.now) vertices.now) }
    ensures ticks { steps.new ≤ steps.old + 4 * length (P.live parents.now) + 3 * length vertices.now }
{
    let roots = roots_above(alloc, vertices, parents, steps)?;
    held(alloc, vertices, &roots)
}
