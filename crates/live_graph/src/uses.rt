ghost use Rattle.std.specs.Prelude.{◌≡◌, ℕ, ◌+◌, ◌<◌, ◌≤◌, ◌^◌, ◌==◌, ◌&&◌, length, slice_index, OnOk};
ghost use Rattle.edge_numbers.specs.Numbered.{Numbered, IsEdgeNumber};
ghost use Rattle.live_graph.specs.Around.{once, IsStateSet};
ghost use Rattle.live_graph.specs.Uses.{AreUses, HasVertexNames};

use crate::by_name::add_number;
use crate::parent_count::recount;
use crate::whole::is_present;
use edge_lattice::State;
use edge_numbers::EdgeNumbers;
use numbers_by_name::NumbersByName;
use text_parts::NoMemory;

// Puts the number of the first vertex whose uses are not counted yet under its name, and counts them.
fn name_vertex(
    edges: &EdgeNumbers,
    names: &mut NumbersByName,
    uses: &mut Vec<u64>,
) -> Result<(), NoMemory>
    requires uses { AreUses edges.now uses.old.items }
    requires names { HasVertexNames edges.now (length uses.old.items) names.old }
    requires next { length uses.old.items < length edges.now.vertices }
    ensures uses { AreUses edges.now uses.new.items }
    ensures names { HasVertexNames edges.now (length uses.new.items) names.new }
    ensures count { OnOk result (length uses.new.items ≡ length uses.old.items + 1) }
{
    let next = uses.len();
    add_number(names, edges.vertex(next).name, next)?;
    uses.push(0)?;
    Ok(())
}

/// Puts the number of each vertex under its name, and counts the uses of each.
pub(crate) fn name_vertices(
    edges: &EdgeNumbers,
    names: &mut NumbersByName,
    uses: &mut Vec<u64>,
) -> Result<(), NoMemory>
    requires uses { AreUses edges.now uses.old.items }
    requires names { HasVertexNames edges.now (length uses.old.items) names.old }
    ensures uses { AreUses edges.now uses.new.items }
    ensures names { HasVertexNames edges.now (length uses.new.items) names.new }
    ensures all { OnOk result (length edges.now.vertices ≤ length uses.new.items) }
{
    while uses.len() < edges.vertex_count() {
        name_vertex(edges, names, uses)?;
    }
    Ok(())
}

// The uses of a vertex that is an end of an edge which was present or not, and is to be or not.
fn recount_end(uses: &mut Vec<u64>, vertex: usize, had: bool, has: bool)
    requires vertex { vertex < length uses.old.items }
    requires counted { once had ≤ slice_index uses.old.items vertex }
    requires fits { slice_index uses.old.items vertex + 1 < 2 ^ 64 }
    ensures uses { (n : ℕ) → slice_index uses.new.items n + once (had && (vertex == n)) ≡ slice_index uses.old.items n + once (has && (vertex == n)) }
    ensures count { length uses.new.items ≡ length uses.old.items }
{
    recount(&mut uses[vertex], had, has);
}

/// Counts the uses of the ends of an edge that is to have a state.
pub(crate) fn recount_ends(edges: &EdgeNumbers, uses: &mut Vec<u64>, number: usize, state: State)
    requires uses { AreUses edges.now uses.old.items }
    requires number { IsEdgeNumber edges.now number }
    requires fits { length edges.now.entries ≤ 2 ^ 32 }
    ensures uses { (after : Numbered) → IsStateSet edges.now number state after → AreUses after uses.new.items }
    ensures count { length uses.new.items ≡ length uses.old.items }
{
    // No vertex has two numbers.
    let _vertices = edges.vertex_count();
    let had = is_present(edges.state_at(number));
    let has = is_present(state);
    let source = edges.source(number);
    let target = edges.target(number);
    recount_end(uses, source, had, has);
    recount_end(uses, target, had, has);
}
