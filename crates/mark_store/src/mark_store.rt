ghost use Rattle.std.specs.Prelude.{◌≡◌, None, Some, if◌then◌else◌, OnOk};
ghost use Rattle.std.specs.List.{All};
ghost use Rattle.grove_edits.specs.declared.vertex.Vertex.{Vertex};
ghost use Rattle.grove_edits.specs.Vertex.{is_same_vertex};
ghost use Rattle.mark_store.specs.Places.{place_at, value_at, HasRoom, KeepsRoom};

use crate::record::Record;
use crate::vertex_map::VertexMap;
use grove_edits::Vertex;
use seeded_hash::HashSeed;
use std::alloc::Global;
use std::marker::Model;
use text_parts::NoMemory;

/// The records of vertices.
#[derive(Drop)]
pub struct MarkStore {
    records: VertexMap<Record>,
}

impl Model for MarkStore {
    ghost use Rattle.mark_store.specs.Places.{Places};
    ghost use Rattle.mark_store.specs.declared.record.Record.{Record};

    ghost Value = { Places Record };

    ghost view = { λ store. store.records };
}

impl MarkStore {
    /// A store of no records, for vertices that are trusted.
    pub fn new(alloc: Global) -> MarkStore
        ensures empty { (v : Vertex) → place_at result v ≡ None }
    {
        MarkStore::with_seed(alloc, HashSeed::FIXED)
    }

    /// A store of no records, which finds vertices by their hash under a seed.
    pub fn with_seed(alloc: Global, seed: HashSeed) -> MarkStore
        ensures empty { (v : Vertex) → place_at result v ≡ None }
    {
        MarkStore {
            records: VertexMap::with_seed(alloc, seed),
        }
    }

    /// The record of a vertex, if it has one.
    pub fn get(&self, vertex: &Vertex) -> Option<Record>
        ensures { result ≡ value_at self.now vertex.now }
    {
        self.records.get(vertex)
    }

    /// Makes room for each of these vertices. Room once made stays.
    pub fn reserve_for(&mut self, vertices: &[Vertex]) -> Result<(), NoMemory>
        ensures room { OnOk result (All (HasRoom self.new) vertices.now) }
        ensures unchanged { (v : Vertex) → value_at self.new v ≡ value_at self.old v }
        ensures room_stays { KeepsRoom self.old self.new }
    {
        self.records.reserve_for(vertices)
    }

    /// Puts the record of a vertex, for which there is room.
    pub fn set(&mut self, vertex: &Vertex, value: Record)
        requires { HasRoom self.old vertex.now }
        ensures put { (v : Vertex) → value_at self.new v ≡ (if is_same_vertex vertex.now v then Some value else value_at self.old v) }
        ensures room_stays { KeepsRoom self.old self.new }
    {
        self.records.set(vertex, value)
    }

    /// Takes away the record of a vertex, if it has one, and leaves the room for it.
    pub fn clear(&mut self, vertex: &Vertex)
        ensures cleared { (v : Vertex) → value_at self.new v ≡ (if is_same_vertex vertex.now v then None else value_at self.old v) }
        ensures room_stays { KeepsRoom self.old self.new }
    {
        self.records.clear(vertex)
    }
}
