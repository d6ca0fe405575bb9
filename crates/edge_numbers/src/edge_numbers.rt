ghost use Rattle.std.specs.Prelude.{◌≡◌, ℕ, ◌<◌, List, Some, [], length, set, slice_get, IfOk, IfSome, OnOk, OnErr};
ghost use Rattle.std.specs.List.{AllByRecursion, IsDistinct};
ghost use Rattle.std.specs.Map.{keys_of};
ghost use Rattle.grove_edits.specs.declared.vertex.Vertex.{Vertex};
ghost use Rattle.grove_edits.specs.declared.edge.Edge.{Edge};
ghost use Rattle.grove_edits.specs.Edge.{edge_cmp};
ghost use Rattle.grove_edits.specs.Graph.{is_same_edge};
ghost use Rattle.grove_edits.specs.Vertex.{is_same_vertex};
ghost use Rattle.edge_numbers.specs.Numbered.{edges_of, states_of, edge_at, state_at, vertex_at, with_vertex, with_entry, IsEdgeNumber, IsVertexNumber, IsNumberOfEdge, IsNumberOfVertex, HasEndsIn, BeginsWith, KeepsNumbers};
ghost use Rattle.graph_words.specs.States.{state_in, with_state, HasRoom, KeepsRoom};
ghost use Rattle.edge_numbers.specs.Narrow.{edge_of, entries_of, HasEnds, IsNumbered};

use crate::ends::{enter_vertex, find_ends, note_last, number_of};
use crate::narrow_edge::NarrowEdge;
use crate::order::compare_edges;
use edge_lattice::State;
use grove_edits::{Edge, Vertex};
use grove_names::Name;
use grove_sorts::Position;
use indexmap::{IndexMap, IndexSet};
use numbers_by_name::Guesses;
use seeded_hash::HashSeed;
use std::alloc::Global;
use std::cmp::Ordering;
use std::marker::Model;
use text_parts::NoMemory;

/// The edges of a graph, each with its state, by number, and the vertices that they join by theirs.
#[derive(Drop)]
pub struct EdgeNumbers {
    vertices: IndexSet<Vertex, HashSeed>,
    // Which number a vertex probably has.
    guesses: Guesses,
    edges: IndexMap<NarrowEdge, State, HashSeed>,
}

impl Model for EdgeNumbers {
    ghost use Rattle.edge_numbers.specs.Numbered.{Numbered};
    ghost use Rattle.edge_numbers.specs.Narrow.{numbered, IsNumbered};

    ghost Value = { Numbered };

    ghost view = { λ numbers. numbered numbers.vertices.keys numbers.edges.entries };

    ghost invariant = { λ numbers. IsNumbered numbers.vertices.keys numbers.edges.entries };
}

// The number of an edge, which gets the next one and the state Absent where it has none.
fn enter_edge(
    edges: &mut IndexMap<NarrowEdge, State, HashSeed>,
    narrow: NarrowEdge,
) -> Result<usize, NoMemory>
    ensures number { IfOk result (λ n. slice_get (keys_of edges.new.entries) n ≡ Some narrow) }
    ensures entered { (vertices : List Vertex) → IsNumbered vertices edges.old.entries → HasEnds vertices narrow → OnOk result (entries_of vertices edges.new.entries ≡ with_entry (edge_of vertices narrow) (entries_of vertices edges.old.entries)) }
    ensures numbered { (vertices : List Vertex) → IsNumbered vertices edges.old.entries → HasEnds vertices narrow → IsNumbered vertices edges.new.entries }
    ensures unchanged { OnErr result (edges.new.entries ≡ edges.old.entries) }
{
    if let Some(number) = edges.get_index_of(&narrow) {
        return Ok(number);
    }
    let number = edges.len();
    edges.insert(narrow, State::Absent)?;
    Ok(number)
}

// The edge with a number.
fn narrow_at(edges: &IndexMap<NarrowEdge, State, HashSeed>, number: usize) -> &NarrowEdge
    requires { number < length edges.now.entries }
    ensures { slice_get (keys_of edges.now.entries) number ≡ Some result.now }
{
    let (narrow, _state) = edges.get_index(number).unwrap();
    narrow
}

impl EdgeNumbers {
    /// No vertices and no edges, for vertices and names that are trusted.
    pub fn new(alloc: Global) -> EdgeNumbers
        ensures vertices { result.vertices ≡ [] }
        ensures entries { result.entries ≡ [] }
    {
        EdgeNumbers::with_seed(alloc, HashSeed::FIXED)
    }

    /// No vertices and no edges. They are found by their hash under a seed.
    pub fn with_seed(alloc: Global, seed: HashSeed) -> EdgeNumbers
        ensures vertices { result.vertices ≡ [] }
        ensures entries { result.entries ≡ [] }
    {
        EdgeNumbers {
            vertices: IndexSet::with_hasher(alloc, seed),
            guesses: Guesses::new(alloc),
            edges: IndexMap::with_hasher(alloc, seed),
        }
    }

    /// The seed of its hashes, for what else is found by vertices or edges.
    pub fn seed(&self) -> HashSeed {
        *self.vertices.hasher()
    }

    /// How many vertices have numbers, which are those below; no vertex has two.
    pub fn vertex_count(&self) -> usize
        ensures count { result ≡ length self.now.vertices }
        ensures once { IsDistinct is_same_vertex self.now.vertices }
    {
        self.vertices.len()
    }

    /// How many edges have numbers, which are those below; no edge has two, and the ends of each are vertices with numbers.
    pub fn edge_count(&self) -> usize
        ensures count { result ≡ length self.now.entries }
        ensures once { IsDistinct is_same_edge (edges_of self.now.entries) }
        ensures ends { AllByRecursion (HasEndsIn self.now.vertices) (edges_of self.now.entries) }
    {
        self.edges.len()
    }

    /// The vertex with a number.
    pub fn vertex(&self, number: usize) -> &Vertex
        requires { IsVertexNumber self.now number }
        ensures { result.now ≡ vertex_at self.now number }
    {
        &self.vertices.as_slice()[number]
    }

    /// The number of a vertex, or None where it has none.
    pub fn vertex_number(&self, vertex: &Vertex) -> Option<usize>
        ensures number { IfSome result (IsNumberOfVertex self.now vertex.now) }
        ensures only { (n : ℕ) → IsNumberOfVertex self.now vertex.now n → result ≡ Some n }
    {
        number_of(&self.vertices, &self.guesses, vertex)
    }

    /// The number of an edge, or None where it has none.
    pub fn number(&self, edge: &Edge) -> Option<usize>
        ensures number { IfSome result (IsNumberOfEdge self.now edge.now) }
        ensures only { (n : ℕ) → IsNumberOfEdge self.now edge.now n → result ≡ Some n }
    {
        let narrow = find_ends(&self.vertices, &self.guesses, edge)?;
        self.edges.get_index_of(&narrow)
    }

    /// The state of an edge, which is Absent where it has no number.
    pub fn state(&self, edge: &Edge) -> State
        ensures { result ≡ state_in self.now.entries edge.now }
    {
        match self.number(edge) {
            Some(number) => self.state_at(number),
            None => State::Absent,
        }
    }

    /// The number of a vertex, which gets the next one where it has none.
    pub fn enter_vertex(&mut self, vertex: &Vertex) -> Result<usize, NoMemory>
        ensures number { IfOk result (IsNumberOfVertex self.new vertex.now) }
        ensures vertices { OnOk result (self.new.vertices ≡ with_vertex vertex.now self.old.vertices) }
        ensures vertices_stay { BeginsWith self.new.vertices self.old.vertices }
        ensures numbers_stay { (v : Vertex) (n : ℕ) → IsNumberOfVertex self.old v n → IsNumberOfVertex self.new v n }
        ensures entries { self.new.entries ≡ self.old.entries }
    {
        let number = enter_vertex(&mut self.vertices, &self.guesses, vertex)?;
        note_last(&mut self.guesses, self.vertices.as_slice());
        Ok(number as usize)
    }

    /// The number of an edge whose ends have these numbers. It gets the next one and the state Absent where it has none.
    pub fn enter(&mut self, edge: &Edge, source: usize, target: usize) -> Result<usize, NoMemory>
        requires source { IsNumberOfVertex self.old edge.now.source source }
        requires target { IsNumberOfVertex self.old edge.now.target target }
        ensures number { IfOk result (IsNumberOfEdge self.new edge.now) }
        ensures entries { OnOk result (self.new.entries ≡ with_entry edge.now self.old.entries) }
        ensures unchanged { OnErr result (self.new.entries ≡ self.old.entries) }
        ensures vertices { self.new.vertices ≡ self.old.vertices }
        ensures numbers_stay { KeepsNumbers self.old self.new }
        ensures graph { (e : Edge) → state_in self.new.entries e ≡ state_in self.old.entries e }
        ensures room { OnOk result (HasRoom self.new.entries edge.now) }
        ensures room_stays { KeepsRoom self.old.entries self.new.entries }
    {
        // No vertex has a number of more than 32 bits.
        let _vertices = self.vertices.len();
        let narrow = NarrowEdge {
            name: edge.name,
            source: source as u32,
            target: target as u32,
            position: edge.position,
        };
        enter_edge(&mut self.edges, narrow)
    }

    /// The edge with a number.
    pub fn edge(&self, number: usize) -> Edge
        requires { IsEdgeNumber self.now number }
        ensures { result ≡ edge_at self.now number }
    {
        let narrow = narrow_at(&self.edges, number);
        let vertices = self.vertices.as_slice();
        Edge {
            name: narrow.name,
            source: vertices[narrow.source as usize],
            position: narrow.position,
            target: vertices[narrow.target as usize],
        }
    }

    /// The name of the edge with a number.
    pub fn name(&self, number: usize) -> Name
        requires { IsEdgeNumber self.now number }
        ensures { result ≡ (edge_at self.now number).name }
    {
        narrow_at(&self.edges, number).name
    }

    /// The position of the edge with a number.
    pub fn position(&self, number: usize) -> Position
        requires { IsEdgeNumber self.now number }
        ensures { result ≡ (edge_at self.now number).position }
    {
        narrow_at(&self.edges, number).position
    }

    /// The number of the vertex from which the edge with a number leads.
    pub fn source(&self, number: usize) -> usize
        requires { IsEdgeNumber self.now number }
        ensures { IsNumberOfVertex self.now (edge_at self.now number).source result }
    {
        narrow_at(&self.edges, number).source as usize
    }

    /// The number of the vertex to which the edge with a number leads.
    pub fn target(&self, number: usize) -> usize
        requires { IsEdgeNumber self.now number }
        ensures { IsNumberOfVertex self.now (edge_at self.now number).target result }
    {
        narrow_at(&self.edges, number).target as usize
    }

    /// The state of the edge with a number.
    pub fn state_at(&self, number: usize) -> State
        requires { IsEdgeNumber self.now number }
        ensures { result ≡ state_at self.now number }
    {
        self.edges[number]
    }

    /// Sets the state of the edge with a number.
    pub fn set_state(&mut self, number: usize, state: State)
        requires { IsEdgeNumber self.old number }
        ensures states { states_of self.new.entries ≡ set (states_of self.old.entries) number state }
        ensures edges { edges_of self.new.entries ≡ edges_of self.old.entries }
        ensures vertices { self.new.vertices ≡ self.old.vertices }
        ensures numbers_stay { KeepsNumbers self.old self.new }
        ensures graph { (e : Edge) → state_in self.new.entries e ≡ with_state (edge_at self.old number) state (state_in self.old.entries) e }
        ensures room_stays { KeepsRoom self.old.entries self.new.entries }
    {
        self.edges[number] = state;
    }

    /// The order of the edges with two numbers.
    pub fn cmp(&self, a: usize, b: usize) -> Ordering
        requires first { IsEdgeNumber self.now a }
        requires second { IsEdgeNumber self.now b }
        ensures { result ≡ edge_cmp (edge_at self.now a) (edge_at self.now b) }
    {
        let first = narrow_at(&self.edges, a);
        let second = narrow_at(&self.edges, b);
        compare_edges(self.vertices.as_slice(), first, second)
    }
}
