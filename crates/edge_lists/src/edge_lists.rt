ghost use Rattle.std.specs.Prelude.{◌≡◌, ℕ, ◌+◌, ◌<◌, ◌≤◌, ◌^◌, ◌++◌, ◌∷◌, ◌||◌, ◌&&◌, ◌==◌, not, true, false, [], length, map, if◌then◌else◌, OnOk, OnErr};
ghost use Rattle.grove_sorts.specs.declared.position.Position.{Position};
ghost use Rattle.grove_sorts.specs.Position.{is_same_position};
ghost use Rattle.graph_words.specs.Live.{IsInEdgeOrder, holds_edge};
ghost use Rattle.graph_words.specs.Ordered.{with_edge, without_edge};
ghost use Rattle.edge_numbers.specs.Numbered.{edge_at, IsEdgeNumber};
ghost use Rattle.edge_lists.specs.Lists.{nothing_listed, listed_at, numbers_at, places_at, edges_at, HasVertex, HasFreePlace, KeepsOthers, AreEdgeNumbers, holds_number, without_number, with_position, numbers_with_position};
ghost use Rattle.edge_lists.specs.Order.{IsInOrder, position_first, with_edge_by, by_edge, with_number};

use crate::lent_numbers::LentNumbers;
use crate::list_order::{ByPosition, ListOrder};
use crate::listed::Listed;
use crate::places::{place_in, place_of};
use edge_numbers::EdgeNumbers;
use grove_sorts::Position;
use std::alloc::Global;
use std::marker::{Model, PhantomData};
use text_parts::NoMemory;

/// Lists of edges by number, one for each vertex by number, each in an order.
#[derive(Drop)]
pub struct EdgeLists<O: ListOrder> {
    alloc: Global,
    lists: Vec<Listed>,
    // What is lent where there is no list.
    nothing: Listed,
    order: PhantomData<O>,
}

impl<O: ListOrder> Model for EdgeLists<O> {
    ghost use Rattle.std.specs.Prelude.{List};
    ghost use Rattle.edge_lists.specs.Lists.{Listed};

    ghost Value = { List Listed };

    ghost view = { λ lists. lists.lists.items };
}

// All numbers of a list.
fn whole(list: &Listed) -> LentNumbers<'_>
    ensures numbers { result ≡ list.now.numbers }
    ensures places { length list.now.numbers ≤ list.now.places }
{
    LentNumbers::of(list, 0, list.len())
}

// Puts the number of an edge at its place.
fn put_in<O: ListOrder>(list: &mut Listed, edge: usize, edges: &EdgeNumbers)
    requires edge { IsEdgeNumber edges.now edge }
    requires fits { edge < 2 ^ 32 }
    requires known { AreEdgeNumbers edges.now list.old.numbers }
    requires in_order { IsInOrder O.order (map (edge_at edges.now) list.old.numbers) }
    requires place { length list.old.numbers < list.old.places }
    ensures numbers { list.new.numbers ≡ with_number (by_edge O.order edges.now) edge list.old.numbers }
    ensures places { list.new.places ≡ list.old.places }
{
    let index = place_in::<O>(&whole(list), edge, edges);
    list.insert(index, edge as u32);
}

// Takes the number of an edge out.
fn take_from<O: ListOrder>(list: &mut Listed, edge: usize, edges: &EdgeNumbers)
    requires known { AreEdgeNumbers edges.now list.old.numbers }
    requires in_order { IsInOrder O.order (map (edge_at edges.now) list.old.numbers) }
    requires held { holds_number edge list.old.numbers ≡ true }
    ensures numbers { list.new.numbers ≡ without_number edge list.old.numbers }
    ensures places { list.new.places ≡ list.old.places }
    ensures free { length list.new.numbers < list.new.places }
{
    let index = place_in::<O>(&whole(list), edge, edges);
    list.remove(index);
}

impl<O: ListOrder> EdgeLists<O> {
    /// Lists for no vertices.
    pub fn new(alloc: Global) -> EdgeLists<O>
        ensures { result ≡ [] }
    {
        EdgeLists {
            alloc,
            lists: Vec::new(alloc),
            nothing: Listed::nothing(alloc),
            order: PhantomData,
        }
    }

    /// How many vertices have lists, which are those whose numbers are below.
    pub fn vertex_count(&self) -> usize
        ensures { result ≡ length self.now }
    {
        self.lists.len()
    }

    /// A list for one vertex more, in which nothing stands and nothing has a place.
    pub fn add_vertex(&mut self) -> Result<(), NoMemory>
        ensures added { OnOk result (self.new ≡ self.old ++ nothing_listed ∷ []) }
        ensures unchanged { OnErr result (self.new ≡ self.old) }
    {
        self.lists.push(Listed::nothing(self.alloc))?;
        Ok(())
    }

    /// Makes one place more in the list of a vertex. As many edges as have places are put without memory.
    pub fn promise(&mut self, vertex: usize) -> Result<(), NoMemory>
        requires { HasVertex self.old vertex }
        ensures places { OnOk result (places_at self.new vertex ≡ places_at self.old vertex + 1) }
        ensures numbers { numbers_at self.new vertex ≡ numbers_at self.old vertex }
        ensures others { KeepsOthers vertex self.old self.new }
        ensures count { length self.new ≡ length self.old }
        ensures unchanged { OnErr result (self.new ≡ self.old) }
    {
        self.lists[vertex].promise(self.alloc)
    }

    fn list_at(&self, vertex: usize) -> &Listed
        requires { HasVertex self.now vertex }
        ensures { result.now ≡ listed_at self.now vertex }
    {
        &self.lists[vertex]
    }

    /// The numbers of the edges at a vertex.
    pub fn at(&self, vertex: usize) -> LentNumbers<'_>
        requires { HasVertex self.now vertex }
        ensures numbers { result ≡ numbers_at self.now vertex }
        ensures places { length (numbers_at self.now vertex) ≤ places_at self.now vertex }
    {
        whole(self.list_at(vertex))
    }

    /// No numbers, for what is at no vertex.
    pub fn none(&self) -> LentNumbers<'_>
        ensures { result ≡ [] }
    {
        LentNumbers::of(&self.nothing, 0, 0)
    }

    /// Puts an edge that is not listed at the vertex yet, and for which there is a place.
    pub fn put(&mut self, vertex: usize, edge: usize, edges: &EdgeNumbers)
        requires vertex { HasVertex self.old vertex }
        requires edge { IsEdgeNumber edges.now edge }
        requires fits { edge < 2 ^ 32 }
        requires known { AreEdgeNumbers edges.now (numbers_at self.old vertex) }
        requires in_order { IsInOrder O.order (edges_at edges.now self.old vertex) }
        requires new { holds_edge (edge_at edges.now edge) (edges_at edges.now self.old vertex) ≡ false }
        requires place { HasFreePlace self.old vertex }
        ensures edges { edges_at edges.now self.new vertex ≡ with_edge_by O.order (edge_at edges.now edge) (edges_at edges.now self.old vertex) }
        ensures positions { (p : Position) → with_position p (edges_at edges.now self.new vertex) ≡ (if is_same_position (edge_at edges.now edge).position p then with_edge (edge_at edges.now edge) (with_position p (edges_at edges.now self.old vertex)) else with_position p (edges_at edges.now self.old vertex)) }
        ensures numbers { numbers_at self.new vertex ≡ with_number (by_edge O.order edges.now) edge (numbers_at self.old vertex) }
        ensures holds { (n : ℕ) → holds_number n (numbers_at self.new vertex) ≡ ((edge == n) || holds_number n (numbers_at self.old vertex)) }
        ensures in_order { IsInOrder O.order (edges_at edges.now self.new vertex) }
        ensures places { places_at self.new vertex ≡ places_at self.old vertex }
        ensures others { KeepsOthers vertex self.old self.new }
        ensures count { length self.new ≡ length self.old }
    {
        put_in::<O>(&mut self.lists[vertex], edge, edges);
    }

    /// Takes an edge that is listed at the vertex out, and leaves its place.
    pub fn take_out(&mut self, vertex: usize, edge: usize, edges: &EdgeNumbers)
        requires vertex { HasVertex self.old vertex }
        requires known { AreEdgeNumbers edges.now (numbers_at self.old vertex) }
        requires in_order { IsInOrder O.order (edges_at edges.now self.old vertex) }
        requires held { holds_number edge (numbers_at self.old vertex) ≡ true }
        ensures edges { edges_at edges.now self.new vertex ≡ without_edge (edge_at edges.now edge) (edges_at edges.now self.old vertex) }
        ensures positions { (p : Position) → with_position p (edges_at edges.now self.new vertex) ≡ without_edge (edge_at edges.now edge) (with_position p (edges_at edges.now self.old vertex)) }
        ensures numbers { numbers_at self.new vertex ≡ without_number edge (numbers_at self.old vertex) }
        ensures holds { (n : ℕ) → holds_number n (numbers_at self.new vertex) ≡ (not (edge == n) && holds_number n (numbers_at self.old vertex)) }
        ensures in_order { IsInOrder O.order (edges_at edges.now self.new vertex) }
        ensures places { places_at self.new vertex ≡ places_at self.old vertex }
        ensures free { HasFreePlace self.new vertex }
        ensures others { KeepsOthers vertex self.old self.new }
        ensures count { length self.new ≡ length self.old }
    {
        take_from::<O>(&mut self.lists[vertex], edge, edges);
    }
}

impl EdgeLists<ByPosition> {
    /// The numbers of the edges at a vertex that are from a position.
    pub fn at_position(
        &self,
        vertex: usize,
        position: Position,
        edges: &EdgeNumbers,
    ) -> LentNumbers<'_>
        requires vertex { HasVertex self.now vertex }
        requires known { AreEdgeNumbers edges.now (numbers_at self.now vertex) }
        requires in_order { IsInOrder position_first (edges_at edges.now self.now vertex) }
        ensures numbers { result ≡ numbers_with_position edges.now position (numbers_at self.now vertex) }
        ensures edges { map (edge_at edges.now) result ≡ with_position position (edges_at edges.now self.now vertex) }
        ensures in_order { IsInEdgeOrder (map (edge_at edges.now) result) }
    {
        let list = self.list_at(vertex);
        let numbers = whole(list);
        let from = place_of(&numbers, position, false, edges);
        let to = place_of(&numbers, position, true, edges);
        LentNumbers::of(list, from, to)
    }
}
