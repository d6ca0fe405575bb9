ghost use Rattle.std.specs.Prelude.{◌≡◌, ℕ, ◌<◌, ◌≤◌, ◌^◌, length, slice_get, Some, IsTrue, IfOk, IfSome, OnOk};
ghost use Rattle.std.specs.List.{IsDistinct};
ghost use Rattle.grove_edits.specs.Vertex.{is_same_vertex};
ghost use Rattle.edge_numbers.specs.declared.narrow_edge.NarrowEdge.{NarrowEdge};
ghost use Rattle.edge_numbers.specs.Numbered.{with_vertex, BeginsWith};
ghost use Rattle.edge_numbers.specs.Narrow.{edge_of, HasEnds};

use crate::narrow_edge::NarrowEdge;
use grove_edits::{Edge, Vertex};
use indexmap::IndexSet;
use numbers_by_name::Guesses;
use seeded_hash::HashSeed;
use text_parts::NoMemory;

// Whether a vertex has a number.
fn is_at(vertices: &IndexSet<Vertex, HashSeed>, number: usize, vertex: &Vertex) -> bool
    ensures there { IsTrue result → slice_get vertices.now.keys number ≡ Some vertex.now }
    ensures within { IsTrue result → number < length vertices.now.keys }
{
    match vertices.get_index(number) {
        Some(found) => found == vertex,
        None => false,
    }
}

/// The number of a vertex, or None where it has none. It mostly has the one that is guessed, and then no hash is taken.
pub(crate) fn number_of(
    vertices: &IndexSet<Vertex, HashSeed>,
    guesses: &Guesses,
    vertex: &Vertex,
) -> Option<usize>
    ensures number { IfSome result (λ n. slice_get vertices.now.keys n ≡ Some vertex.now) }
    ensures only { (n : ℕ) → slice_get vertices.now.keys n ≡ Some vertex.now → result ≡ Some n }
{
    // No vertex has two numbers.
    let _vertices = vertices.len();
    let guess = guesses.guess(vertex.name);
    if is_at(vertices, guess, vertex) {
        return Some(guess);
    }
    vertices.get_index_of(vertex)
}

/// The number of a vertex, which gets the next one where it has none.
pub(crate) fn enter_vertex(
    vertices: &mut IndexSet<Vertex, HashSeed>,
    guesses: &Guesses,
    vertex: &Vertex,
) -> Result<u32, NoMemory>
    requires { length vertices.old.keys ≤ 2 ^ 32 }
    ensures number { IfOk result (λ number. slice_get vertices.new.keys number ≡ Some vertex.now) }
    ensures vertices { OnOk result (vertices.new.keys ≡ with_vertex vertex.now vertices.old.keys) }
    ensures stays { BeginsWith vertices.new.keys vertices.old.keys }
    ensures once { IsDistinct is_same_vertex vertices.new.keys }
    ensures fits { length vertices.new.keys ≤ 2 ^ 32 }
{
    let count = vertices.len();
    let guess = guesses.guess(vertex.name);
    if is_at(vertices, guess, vertex) {
        return Ok(guess as u32);
    }
    // Where all numbers are given, a vertex may still have one.
    if count > u32::MAX as usize {
        let Some(number) = vertices.get_index_of(vertex) else {
            return Err(NoMemory);
        };
        return Ok(number as u32);
    }
    let (number, _is_new) = vertices.insert_full(*vertex)?;
    Ok(number as u32)
}

/// Takes note of the vertex that has the last number.
pub(crate) fn note_last(guesses: &mut Guesses, vertices: &[Vertex]) {
    if guesses.grow_for(vertices.len()) {
        for (number, vertex) in vertices.iter().enumerate() {
            guesses.note(vertex.name, number);
        }
    } else if let Some(last) = vertices.last() {
        guesses.note(last.name, vertices.len() - 1);
    }
}

/// An edge by the numbers of its ends, or None where one has no number.
pub(crate) fn find_ends(
    vertices: &IndexSet<Vertex, HashSeed>,
    guesses: &Guesses,
    edge: &Edge,
) -> Option<NarrowEdge>
    requires fits { length vertices.now.keys ≤ 2 ^ 32 }
    ensures edge { IfSome result (λ narrow. edge_of vertices.now.keys narrow ≡ edge.now) }
    ensures ends { IfSome result (HasEnds vertices.now.keys) }
    ensures only { (narrow : NarrowEdge) → HasEnds vertices.now.keys narrow → edge_of vertices.now.keys narrow ≡ edge.now → result ≡ Some narrow }
{
    let source = number_of(vertices, guesses, &edge.source)?;
    let target = number_of(vertices, guesses, &edge.target)?;
    Some(NarrowEdge {
        name: edge.name,
        source: source as u32,
        target: target as u32,
        position: edge.position,
    })
}
