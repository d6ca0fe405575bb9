ghost use Rattle.std.specs.Prelude.{◌≡◌, ◌<◌, ◌^◌, length, true, false, IfOk, OnOk, OnErr};
ghost use Rattle.edge_lattice.specs.declared.state.State.{State};
ghost use Rattle.grove_edits.specs.declared.edge.Edge.{Edge};
ghost use Rattle.edge_numbers.specs.Numbered.{Numbered, state_at, with_entry, edge_at, IsEdgeNumber};
ghost use Rattle.graph_words.specs.States.{state_in, with_state, KeepsRoom, is_live};
ghost use Rattle.live_graph.specs.NumberOf.{IsNumberOf, KeepsNumbersOf};
ghost use Rattle.live_graph.specs.Around.{IsListed, IsStateSet};
ghost use Rattle.live_graph.specs.Uses.{AreUses, HasVertexNames};

use crate::places::make_places;
use crate::uses::name_vertices;
use edge_lattice::State;
use edge_lists::{ByEdge, ByPosition, EdgeLists};
use edge_numbers::EdgeNumbers;
use grove_edits::Edge;
use numbers_by_name::NumbersByName;
use text_parts::NoMemory;

// Lists keep the numbers of edges in 32 bits.
fn want_number(edges: &EdgeNumbers) -> Result<(), NoMemory>
    ensures { OnOk result (length edges.now.entries < 2 ^ 32) }
{
    if edges.edge_count() > u32::MAX as usize {
        return Err(NoMemory);
    }
    Ok(())
}

/// Enters an edge, with a place at each end, and answers its number. The places are made and the ends are named first, so that each edge with a number has them.
pub(crate) fn enter(
    edges: &mut EdgeNumbers,
    children: &mut EdgeLists<ByPosition>,
    parents: &mut EdgeLists<ByEdge>,
    vertex_names: &mut NumbersByName,
    uses: &mut Vec<u64>,
    edge: &Edge,
) -> Result<usize, NoMemory>
    requires listed { IsListed edges.old children.old parents.old }
    requires uses { AreUses edges.old uses.old.items }
    requires names { HasVertexNames edges.old (length uses.old.items) vertex_names.old }
    ensures listed { IsListed edges.new children.new parents.new }
    ensures uses { AreUses edges.new uses.new.items }
    ensures names { HasVertexNames edges.new (length uses.new.items) vertex_names.new }
    ensures number { IfOk result (IsNumberOf edges.new.entries edge.now) }
    ensures numbers_stay { KeepsNumbersOf edges.old.entries edges.new.entries }
    ensures entries { OnOk result (edges.new.entries ≡ with_entry edge.now edges.old.entries) }
    ensures unchanged { OnErr result (edges.new.entries ≡ edges.old.entries) }
{
    want_number(edges)?;
    let (source, target) = make_places(edges, children, parents, edge)?;
    name_vertices(edges, vertex_names, uses)?;
    // The ends of what has a number are among the vertices.
    let _edges = edges.edge_count();
    let number = edges.enter(edge, source, target)?;
    Ok(number)
}

fn is_live_state(state: State) -> bool
    ensures { result ≡ is_live state }
{
    match state {
        State::Live => true,
        State::Absent | State::Deleted => false,
    }
}

// Puts an edge that becomes live in the lists at its ends.
fn put(
    edges: &EdgeNumbers,
    children: &mut EdgeLists<ByPosition>,
    parents: &mut EdgeLists<ByEdge>,
    number: usize,
)
    requires listed { IsListed edges.now children.old parents.old }
    requires number { IsEdgeNumber edges.now number }
    requires not_live { is_live (state_at edges.now number) ≡ false }
    ensures { (state : State) (after : Numbered) → IsStateSet edges.now number state after → is_live state ≡ true → IsListed after children.new parents.new }
{
    // Nothing has two numbers.
    let _edges = edges.edge_count();
    let _vertices = edges.vertex_count();
    children.put(edges.source(number), number, edges);
    parents.put(edges.target(number), number, edges);
}

// Takes an edge that is live no longer out of the lists at its ends.
fn take_out(
    edges: &EdgeNumbers,
    children: &mut EdgeLists<ByPosition>,
    parents: &mut EdgeLists<ByEdge>,
    number: usize,
)
    requires listed { IsListed edges.now children.old parents.old }
    requires number { IsEdgeNumber edges.now number }
    requires live { is_live (state_at edges.now number) ≡ true }
    ensures { (state : State) (after : Numbered) → IsStateSet edges.now number state after → is_live state ≡ false → IsListed after children.new parents.new }
{
    // Nothing has two numbers.
    let _edges = edges.edge_count();
    let _vertices = edges.vertex_count();
    children.take_out(edges.source(number), number, edges);
    parents.take_out(edges.target(number), number, edges);
}

// Puts an edge in the lists at its ends or takes it out, where it is to have a state.
fn relist(
    edges: &EdgeNumbers,
    children: &mut EdgeLists<ByPosition>,
    parents: &mut EdgeLists<ByEdge>,
    number: usize,
    state: State,
)
    requires listed { IsListed edges.now children.old parents.old }
    requires number { IsEdgeNumber edges.now number }
    ensures { (after : Numbered) → IsStateSet edges.now number state after → IsListed after children.new parents.new }
{
    // No edge has two numbers.
    let _edges = edges.edge_count();
    let was = is_live_state(edges.state_at(number));
    match (was, is_live_state(state)) {
        (false, true) => put(edges, children, parents, number),
        (true, false) => take_out(edges, children, parents, number),
        (false, false) | (true, true) => {}
    }
}

/// Gives the edge with a number a state.
pub(crate) fn set_state(
    edges: &mut EdgeNumbers,
    children: &mut EdgeLists<ByPosition>,
    parents: &mut EdgeLists<ByEdge>,
    number: usize,
    state: State,
)
    requires listed { IsListed edges.old children.old parents.old }
    requires number { IsEdgeNumber edges.old number }
    ensures listed { IsListed edges.new children.new parents.new }
    ensures graph { (e : Edge) → state_in edges.new.entries e ≡ with_state (edge_at edges.old number) state (state_in edges.old.entries) e }
    ensures room_stays { KeepsRoom edges.old.entries edges.new.entries }
    ensures set { IsStateSet edges.old number state edges.new }
{
    relist(edges, children, parents, number, state);
    edges.set_state(number, state);
}
