ghost use Rattle.std.specs.Prelude.{◌≡◌, ◌<◌, ℕ, length, slice_index, IfOk, OnOk, OnErr};
ghost use Rattle.edge_lattice.specs.State.{state_join};
ghost use Rattle.grove_edits.specs.declared.edge.Edge.{Edge};
ghost use Rattle.grove_edits.specs.Graph.{IsSame, graph, graph_join};
ghost use Rattle.graph_words.specs.States.{state_in, with_state, KeepsRoom};
ghost use Rattle.live_graph.specs.NumberOf.{IsNumberOf, KeepsNumbersOf};
ghost use Rattle.graph_joins.specs.Merged.{IsMerged, AreNumbersOf};

use crate::raising::graph_of;
use edge_lattice::State;
use grove_edits::{Edit, EditKind};
use live_graph::LiveGraph;
use std::alloc::Global;
use text_parts::NoMemory;

/// Joins another graph to this one, edge by edge. Room is made for all its edges first.
pub fn merge(alloc: Global, into: &mut LiveGraph, other: &LiveGraph) -> Result<(), NoMemory>
    ensures joined { OnOk result (IsMerged into.old other.now into.new) }
    ensures unchanged { OnErr result (IsSame (state_in into.new) (state_in into.old)) }
    ensures room { OnOk result (KeepsRoom other.now into.new) }
    ensures room_stays { KeepsRoom into.old into.new }
    ensures numbers_stay { KeepsNumbersOf into.old into.new }
{
    let numbers = make_room_for(alloc, into, other)?;
    raise_all(into, other, &numbers);
    Ok(())
}

/// Joins what some edits ask to a graph.
pub fn join_edits(alloc: Global, into: &mut LiveGraph, edits: &[Edit]) -> Result<(), NoMemory>
    ensures joined { OnOk result (IsSame (state_in into.new) (graph_join (state_in into.old) (graph edits.now))) }
    ensures unchanged { OnErr result (IsSame (state_in into.new) (state_in into.old)) }
    ensures room_stays { KeepsRoom into.old into.new }
    ensures numbers_stay { KeepsNumbersOf into.old into.new }
{
    let other = graph_of(alloc, into.seed(), edits)?;
    merge(alloc, into, &other)
}

// Makes room for each edge of another graph, and answers the numbers of these edges here, in the order of their numbers there.
fn make_room_for(
    alloc: Global,
    into: &mut LiveGraph,
    other: &LiveGraph,
) -> Result<Vec<usize>, NoMemory>
    ensures count { IfOk result (λ numbers. length numbers.items ≡ length other.now) }
    ensures numbers { IfOk result (λ numbers. AreNumbersOf other.now into.new numbers.items) }
    ensures unchanged { IsSame (state_in into.new) (state_in into.old) }
    ensures room_stays { KeepsRoom into.old into.new }
    ensures numbers_stay { KeepsNumbersOf into.old into.new }
{
    let mut numbers = Vec::with_capacity(alloc, other.edge_count())?;
    for number in 0..other.edge_count() {
        numbers.push(into.make_room(&other.edge(number))?)?;
    }
    Ok(numbers)
}

// Joins the state of each edge of another graph to that of the edge with its number here.
fn raise_all(into: &mut LiveGraph, other: &LiveGraph, numbers: &[usize])
    requires count { length numbers.now ≡ length other.now }
    requires numbers { AreNumbersOf other.now into.old numbers.now }
    ensures joined { IsMerged into.old other.now into.new }
    ensures room { KeepsRoom other.now into.new }
    ensures room_stays { KeepsRoom into.old into.new }
    ensures numbers_stay { KeepsNumbersOf into.old into.new }
{
    for number in 0..other.edge_count() {
        raise_to(into, numbers[number], other.state_at(number));
    }
}

// Joins a state to that of the edge with a number.
fn raise_to(into: &mut LiveGraph, number: usize, asked: State)
    requires { number < length into.old }
    ensures state { (e : Edge) → IsNumberOf into.old e number → IsSame (state_in into.new) (with_state e (state_join (state_in into.old e) asked) (state_in into.old)) }
    ensures room_stays { KeepsRoom into.old into.new }
    ensures numbers_stay { KeepsNumbersOf into.old into.new }
{
    match asked {
        State::Absent => {}
        State::Live => {
            into.raise_at(number, EditKind::Insert);
        }
        State::Deleted => {
            into.raise_at(number, EditKind::Delete);
        }
    }
}
