ghost use Rattle.std.specs.Prelude.{◌≡◌, ◌||◌, None, OnOk, false};
ghost use Rattle.grove_edits.specs.declared.vertex.Vertex.{Vertex};
ghost use Rattle.grove_edits.specs.Vertex.{is_same_vertex, stands_in};
ghost use Rattle.mark_store.specs.Places.{holds};

use crate::vertex_map::VertexMap;
use grove_edits::{Vertex, is_same_vertex};
use seeded_hash::HashSeed;
use std::alloc::Global;
use std::marker::Model;
use text_parts::NoMemory;

// So many vertices are sooner looked through than hashed.
const MOST_LISTED: usize = 16;

/// A set of vertices. The first few are looked through, and all others are found by their hash under a seed, so that a small set, which
/// most are, costs no hash.
#[derive(Drop)]
pub struct VertexSet {
    listed: Vec<Vertex>,
    others: VertexMap<bool>,
}

impl Model for VertexSet {
    ghost use Rattle.mark_store.specs.Places.{Places, listed_places};
    ghost use Rattle.std.specs.Prelude.{Bool, ◌++◌};

    ghost Value = { Places Bool };

    ghost view = { λ set. listed_places set.listed.items ++ set.others };
}

// Whether a vertex stands in a short list.
fn is_listed(vertices: &[Vertex], vertex: &Vertex) -> bool
    ensures { result ≡ stands_in vertex.now vertices.now }
{
    match vertices.split_first() {
        Some((first, others)) => is_same_vertex(first, vertex) || is_listed(others, vertex),
        None => false,
    }
}

impl VertexSet {
    /// The empty set, which takes no memory.
    pub fn with_seed(alloc: Global, seed: HashSeed) -> VertexSet
        ensures empty { (v : Vertex) → holds result v ≡ false }
    {
        VertexSet {
            listed: Vec::new(alloc),
            others: VertexMap::with_seed(alloc, seed),
        }
    }

    /// Whether a vertex is in the set.
    pub fn holds(&self, vertex: &Vertex) -> bool
        ensures { result ≡ holds self.now vertex.now }
    {
        is_listed(&self.listed, vertex) || self.others.get(vertex).is_some()
    }

    /// Adds a vertex, which may be in the set already.
    pub fn enter(&mut self, vertex: &Vertex) -> Result<(), NoMemory>
        ensures { OnOk result ((v : Vertex) → holds self.new v ≡ (is_same_vertex vertex.now v || holds self.old v)) }
    {
        if self.listed.len() < MOST_LISTED {
            self.listed.push(*vertex)?;
            return Ok(());
        }
        self.others.insert(vertex, true)?;
        Ok(())
    }
}
