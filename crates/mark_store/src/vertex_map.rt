ghost use Rattle.std.specs.Prelude.{◌≡◌, None, Some, Option, if◌then◌else◌, IsTrue, IfSome, slice_get, OnOk, OnErr};
ghost use Rattle.std.specs.List.{All};
ghost use Rattle.std.specs.Option.{option_map};
ghost use Rattle.grove_edits.specs.declared.vertex.Vertex.{Vertex};
ghost use Rattle.grove_edits.specs.Vertex.{is_same_vertex};
ghost use Rattle.mark_store.specs.Places.{place_at, value_at, HasRoom, KeepsRoom};

use grove_edits::Vertex;
use indexmap::IndexMap;
use numbers_by_name::Guesses;
use seeded_hash::HashSeed;
use std::alloc::Global;
use std::marker::Model;
use text_parts::NoMemory;

// Whether a vertex stands at an index.
fn is_at<V: Copy>(
    places: &IndexMap<Vertex, Option<V>, HashSeed>,
    index: usize,
    vertex: &Vertex,
) -> bool
    ensures { IsTrue result → (value : Option V) × (slice_get places.now.entries index ≡ Some (vertex.now, value)) }
{
    match places.get_index(index) {
        Some((found, _)) => found == vertex,
        None => false,
    }
}

// Takes note of the vertex at the last index.
fn note<V: Copy>(
    guesses: &mut Guesses,
    places: &IndexMap<Vertex, Option<V>, HashSeed>,
    last: &Vertex,
) {
    if guesses.grow_for(places.len()) {
        for (index, vertex) in places.keys().enumerate() {
            guesses.note(vertex.name, index);
        }
    } else {
        guesses.note(last.name, places.len().saturating_sub(1));
    }
}

/// A map by vertex in which a value is put without memory wherever the vertex has room.
#[derive(Drop)]
pub struct VertexMap<V: Copy> {
    places: IndexMap<Vertex, Option<V>, HashSeed>,
    // At which index of the places a vertex probably stands.
    guesses: Guesses,
}

impl<V: Copy> Model for VertexMap<V> {
    ghost use Rattle.mark_store.specs.Places.{Places};

    ghost Value = { Places V };

    ghost view = { λ map. map.places.entries };
}

impl<V: Copy> VertexMap<V> {
    /// A map of no values, for vertices that are trusted.
    pub fn new(alloc: Global) -> VertexMap<V>
        ensures empty { (v : Vertex) → place_at result v ≡ None }
    {
        VertexMap::with_seed(alloc, HashSeed::FIXED)
    }

    /// A map of no values, which finds vertices by their hash under a seed.
    pub fn with_seed(alloc: Global, seed: HashSeed) -> VertexMap<V>
        ensures empty { (v : Vertex) → place_at result v ≡ None }
    {
        VertexMap {
            places: IndexMap::with_hasher(alloc, seed),
            guesses: Guesses::new(alloc),
        }
    }

    /// The value of a vertex, if it has one.
    pub fn get(&self, vertex: &Vertex) -> Option<V>
        ensures { result ≡ value_at self.now vertex.now }
    {
        if self.places.is_empty() {
            return None;
        }
        match self.guessed(vertex) {
            Some(value) => value,
            None => self.places.get(vertex).copied().unwrap_or(None),
        }
    }

    /// Makes room for each of these vertices. Room once made stays.
    pub fn reserve_for(&mut self, vertices: &[Vertex]) -> Result<(), NoMemory>
        ensures room { OnOk result (All (HasRoom self.new) vertices.now) }
        ensures unchanged { (v : Vertex) → value_at self.new v ≡ value_at self.old v }
        ensures room_stays { KeepsRoom self.old self.new }
    {
        for vertex in vertices {
            self.make_room(vertex)?;
        }
        Ok(())
    }

    /// Puts the value of a vertex, for which there is room.
    pub fn set(&mut self, vertex: &Vertex, value: V)
        requires { HasRoom self.old vertex.now }
        ensures put { (v : Vertex) → value_at self.new v ≡ (if is_same_vertex vertex.now v then Some value else value_at self.old v) }
        ensures room_stays { KeepsRoom self.old self.new }
    {
        self.write(vertex, Some(value))
    }

    /// Puts the value of a vertex, which may have no room yet.
    pub fn insert(&mut self, vertex: &Vertex, value: V) -> Result<(), NoMemory>
        ensures put { OnOk result ((v : Vertex) → value_at self.new v ≡ (if is_same_vertex vertex.now v then Some value else value_at self.old v)) }
        ensures unchanged { OnErr result ((v : Vertex) → value_at self.new v ≡ value_at self.old v) }
        ensures room_stays { KeepsRoom self.old self.new }
    {
        self.places.insert(*vertex, Some(value))?;
        note(&mut self.guesses, &self.places, vertex);
        Ok(())
    }

    /// Takes away the value of a vertex, if it has one, and leaves the room for it.
    pub fn clear(&mut self, vertex: &Vertex)
        ensures cleared { (v : Vertex) → value_at self.new v ≡ (if is_same_vertex vertex.now v then None else value_at self.old v) }
        ensures room_stays { KeepsRoom self.old self.new }
    {
        self.write(vertex, None)
    }

    fn make_room(&mut self, vertex: &Vertex) -> Result<(), NoMemory>
        ensures room { OnOk result (HasRoom self.new vertex.now) }
        ensures unchanged { (v : Vertex) → value_at self.new v ≡ value_at self.old v }
        ensures room_stays { KeepsRoom self.old self.new }
    {
        if self.guessed(vertex).is_some() {
            return Ok(());
        }
        if !self.places.contains_key(vertex) {
            self.places.insert(*vertex, None)?;
            note(&mut self.guesses, &self.places, vertex);
        }
        Ok(())
    }

    // Writes what stands at the place of a vertex, if it has one.
    fn write(&mut self, vertex: &Vertex, value: Option<V>)
        ensures { (v : Vertex) → place_at self.new v ≡ (if is_same_vertex vertex.now v then option_map (λ _. value) (place_at self.old v) else place_at self.old v) }
    {
        // No vertex has two places.
        let _places = self.places.len();
        let guess = self.guesses.guess(vertex.name);
        if is_at(&self.places, guess, vertex) {
            self.places[guess] = value;
            return;
        }
        let Some(place) = self.places.get_mut(vertex) else {
            return;
        };
        *place = value;
    }

    // What stands at the place of a vertex, where that is guessed.
    fn guessed(&self, vertex: &Vertex) -> Option<Option<V>>
        ensures { IfSome result (λ value. place_at self.now vertex.now ≡ Some value) }
    {
        let (found, value) = self.places.get_index(self.guesses.guess(vertex.name))?;
        if found == vertex { Some(*value) } else { None }
    }
}
