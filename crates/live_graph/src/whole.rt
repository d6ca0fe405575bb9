ghost use Rattle.std.specs.Prelude.{◌≡◌, ◌<◌, ◌≤◌, ◌||◌, ◌++◌, ◌∷◌, [], length, take, IsTrue, IfOk, IfSome, OnOk};
ghost use Rattle.std.specs.List.{list_any};
ghost use Rattle.grove_edits.specs.declared.vertex.Vertex.{Vertex};
ghost use Rattle.grove_edits.specs.Graph.{IsSame, graph, graph_join};
ghost use Rattle.grove_edits.specs.Vertex.{is_same_vertex, stands_in, root};
ghost use Rattle.graph_words.specs.Whole.{IsInVertexOrder};
ghost use Rattle.edge_numbers.specs.Numbered.{edge_at, IsEdgeNumber};
ghost use Rattle.graph_words.specs.States.{state_in, IsEditOf, is_present, well_formed};
ghost use Rattle.live_graph.specs.ByName.{HasEdgeNames};
ghost use Rattle.live_graph.specs.Ends.{has_end};
ghost use Rattle.live_graph.specs.Listed.{told_at};

use edge_lattice::State;
use edge_numbers::EdgeNumbers;
use grove_edits::{Edge, Edit, EditKind, EditList, Vertex};
use numbers_by_name::NumbersByName;
use std::alloc::Global;
use text_parts::NoMemory;

pub(crate) fn is_present(state: State) -> bool
    ensures { result ≡ is_present state }
{
    match state {
        State::Absent => false,
        State::Live | State::Deleted => true,
    }
}

// The edit that asks a state of an edge, where there is one. A graph takes edges too, so whether they are well formed is tested here.
fn edit_of(edge: Edge, state: State) -> Option<Edit>
    ensures { IsEditOf edge state result }
{
    let kind = match state {
        State::Absent => return None,
        State::Live => EditKind::Insert,
        State::Deleted => EditKind::Delete,
    };
    Edit::new(kind, edge).ok()
}

// Lists the edit of the edge with a number, where there is one. A number under a name may be that of no edge.
fn push_edit(edits: &mut EditList, edges: &EdgeNumbers, number: usize) -> Result<(), NoMemory>
    ensures { OnOk result (IsSame (graph edits.new) (graph_join (graph edits.old) (well_formed (told_at edges.now number)))) }
{
    if number >= edges.edge_count() {
        return Ok(());
    }
    if let Some(edit) = edit_of(edges.edge(number), edges.state_at(number)) {
        edits.push(edit)?;
    }
    Ok(())
}

/// The edits that make the graph, in the order of the names of their edges, so that what sorts them finds most in their places.
/// A number that stands under two names lists its edge twice.
pub(crate) fn edits_of(
    alloc: Global,
    edges: &EdgeNumbers,
    names: &NumbersByName,
) -> Result<EditList, NoMemory>
    requires { HasEdgeNames edges.now names.now }
    ensures { IfOk result (λ list. IsSame (graph list) (well_formed (state_in edges.now.entries))) }
{
    // No edge has two numbers.
    let count = edges.edge_count();
    let numbers = names.in_order(alloc)?;
    let mut edits = EditList::new(alloc);
    edits.reserve(count)?;
    for number in &numbers {
        push_edit(&mut edits, edges, *number as usize)?;
    }
    Ok(edits)
}

// Behind how many of the edits a walk is with one number more, where it stands behind so many and the edit of the number, if there is one,
// comes next. None where that does not come next.
fn step_over(edits: &[Edit], at: usize, edges: &EdgeNumbers, number: usize) -> Option<usize>
    requires { at ≤ length edits.now }
    ensures within { IfSome result (λ next. next ≤ length edits.now) }
    ensures told { IfSome result (λ next. IsSame (graph (take next edits.now)) (graph_join (graph (take at edits.now)) (well_formed (told_at edges.now number)))) }
{
    if number >= edges.edge_count() {
        return Some(at);
    }
    let Some(edit) = edit_of(edges.edge(number), edges.state_at(number)) else {
        return Some(at);
    };
    if at < edits.len() && edits[at] == edit {
        Some(at + 1)
    } else {
        None
    }
}

/// Whether these are the edits that make the graph, one by one in the order of the names of their edges. It answers false where a name has
/// several edges and they were numbered in another order.
pub(crate) fn are_edits(
    alloc: Global,
    edges: &EdgeNumbers,
    names: &NumbersByName,
    edits: &[Edit],
) -> Result<bool, NoMemory>
    requires { HasEdgeNames edges.now names.now }
    ensures { IfOk result (λ listed. IsTrue listed → IsSame (graph edits.now) (well_formed (state_in edges.now.entries))) }
{
    // No edge has two numbers.
    let _count = edges.edge_count();
    let numbers = names.in_order(alloc)?;
    let mut at = 0;
    for number in &numbers {
        let Some(next) = step_over(edits, at, edges, *number as usize) else {
            return Ok(false);
        };
        at = next;
    }
    Ok(at == edits.len())
}

fn push_ends(vertices: &mut Vec<Vertex>, edges: &EdgeNumbers, number: usize) -> Result<(), NoMemory>
    requires { IsEdgeNumber edges.now number }
    ensures { OnOk result (vertices.new.items ≡ (vertices.old.items ++ (edge_at edges.now number).source ∷ []) ++ (edge_at edges.now number).target ∷ []) }
{
    vertices.push(*edges.vertex(edges.source(number)))?;
    vertices.push(*edges.vertex(edges.target(number)))?;
    Ok(())
}

/// The vertices of the graph, in no order, and some of them often.
pub(crate) fn ends_of(alloc: Global, edges: &EdgeNumbers) -> Result<Vec<Vertex>, NoMemory>
    ensures { IfOk result (λ list. (v : Vertex) → stands_in v list.items ≡ (is_same_vertex root v || list_any (has_end v) edges.now.entries)) }
{
    let mut vertices = Vec::new(alloc);
    vertices.push(Vertex::ROOT)?;
    for number in 0..edges.edge_count() {
        if is_present(edges.state_at(number)) {
            push_ends(&mut vertices, edges, number)?;
        }
    }
    Ok(vertices)
}

/// Puts vertices in order, and each there once.
pub(crate) fn sort_vertices(vertices: &mut Vec<Vertex>)
    ensures in_order { IsInVertexOrder vertices.new.items }
    ensures same { (v : Vertex) → stands_in v vertices.new.items ≡ stands_in v vertices.old.items }
{
    vertices.sort_unstable();
    vertices.dedup();
}
