ghost use Rattle.std.specs.Prelude.{◌≡◌, ◌<◌, IfOk};
ghost use Rattle.graph_words.specs.Live.{children_of};
ghost use Rattle.live_graph.specs.Live.{live};

use crate::opening_flags::OpeningFlags;
use crate::plan_view::PlanView;
use edge_lattice::State;
use graph_words::{Few, Named, ParentOf, Steps};
use grove_edits::{Edge, Vertex};
use grove_names::Name;
use grove_sorts::Position;
use live_graph::{Edges, LiveGraph};
use std::alloc::Global;
use std::marker::Brand;
use std::sync::ledger::{Blank, Ledger};
use text_parts::NoMemory;

/// What a plan reads of a live graph: the graph, and which of its edges were not Absent as the block opened.
#[derive(Clone, Copy)]
pub struct LiveView<'a> {
    pub graph: &'a LiveGraph,
    pub opening: &'a OpeningFlags,
}

// The live edges from a position of a vertex, in edge order.
fn edges_at<'a>(graph: &'a LiveGraph, vertex: &Vertex, position: Position) -> Edges<'a>
    ensures { result ≡ children_of vertex.now position (live graph.now) }
{
    edges_counting::<Brand>(graph, vertex, position, Blank::new(1))
}

fn edges_counting<'a, L: Ledger>(
    graph: &'a LiveGraph,
    vertex: &Vertex,
    position: Position,
    blank: Blank,
) -> Edges<'a>
    requires name { blank.name ≡ L.name }
    requires parts { blank.parts ≡ L.parts }
    requires some { 0 < blank.parts }
    ensures edges { result ≡ children_of vertex.now position (live graph.now) }
{
    let mut steps = Steps::<L>::new(blank);
    graph.children(vertex, position, &mut steps)
}

// All of some edges, each by itself.
fn all_edges(alloc: Global, edges: &Edges<'_>) -> Result<Vec<Edge>, NoMemory>
    ensures { IfOk result (λ list. list.items ≡ edges.now) }
{
    let mut list = Vec::with_capacity(alloc, edges.len())?;
    for index in 0..edges.len() {
        let Some(edge) = edges.get(index) else {
            continue;
        };
        list.push(edge)?;
    }
    Ok(list)
}

impl<'a> ParentOf for LiveView<'a> {
    ghost use Rattle.live_graph.specs.Live.{live as live_edges};

    ghost live = { λ view. live_edges view.graph.now };

    fn few<L: Ledger>(&self, vertex: &Vertex, steps: &mut Steps<L>) -> Few {
        self.graph.few(vertex, steps)
    }

    fn vertex_count(&self) -> u64 {
        self.graph.vertex_count()
    }
}

impl<'a> PlanView for LiveView<'a> {
    ghost use Rattle.graph_words.specs.States.{state_in};
    ghost use Rattle.live_graph.specs.Live.{live as live_edges};
    ghost use Rattle.user_actions.specs.Flags.{opening_edges};

    ghost states = { λ view. state_in view.graph.now };

    ghost children = { λ view. live_edges view.graph.now };

    ghost opening = { λ view. opening_edges view.graph.now view.opening.now };

    fn state(&self, edge: &Edge) -> State {
        self.graph.state(edge)
    }

    fn edges_named(&self, alloc: Global, name: Name) -> Result<Vec<Edge>, NoMemory> {
        Ok(self.graph.edges_named(alloc, name)?)
    }

    fn vertices_named(&self, name: Name) -> Named {
        self.graph.vertices_named(name)
    }

    fn greatest(&self, author: u32) -> u64 {
        self.graph.greatest(author)
    }

    fn child_count(&self, vertex: &Vertex, position: Position) -> usize {
        edges_at(self.graph, vertex, position).len()
    }

    fn child(&self, vertex: &Vertex, position: Position, index: usize) -> Option<Edge> {
        edges_at(self.graph, vertex, position).get(index)
    }

    fn children_at(
        &self,
        alloc: Global,
        vertex: &Vertex,
        position: Position,
    ) -> Result<Vec<Edge>, NoMemory> {
        all_edges(alloc, &edges_at(self.graph, vertex, position))
    }

    fn leads_to(&self, from: &Vertex, vertex: &Vertex) -> bool {
        self.graph.leads_to(from, vertex)
    }

    fn was_open(&self, edge: &Edge) -> bool {
        self.opening.was_open(self.graph, edge)
    }

    fn known(&self) {}
}
