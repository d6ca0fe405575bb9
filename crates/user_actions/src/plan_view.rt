ghost use Rattle.std.specs.Prelude.{◌≡◌, length, slice_get, IfOk};
ghost use Rattle.graph_words.specs.Cycle.{leads_to};
ghost use Rattle.graph_words.specs.Live.{IsInEdgeOrder, children_of, holds_edge};
ghost use Rattle.graph_words.specs.Names.{IsGreatest, IsNameOf};
ghost use Rattle.graph_words.specs.Named.{AreLeastTwo, AreNamed};
ghost use Rattle.user_actions.specs.Lists.{IsFinite};
ghost use Rattle.user_actions.specs.NamedVertices.{IsVertexNamed};

use edge_lattice::State;
use graph_words::{Named, ParentOf};
use grove_edits::{Edge, Vertex};
use grove_names::Name;
use grove_sorts::Position;
use std::alloc::Global;
use text_parts::NoMemory;

/// What a plan reads: a graph, with the live edges from each vertex and those to it, and the edges that were not Absent as the block
/// opened. As `ParentOf` it tells the live edges to each vertex.
pub trait PlanView: ParentOf {
    ghost use Rattle.std.specs.Prelude.{List};
    ghost use Rattle.grove_edits.specs.declared.edge.Edge.{Edge};
    ghost use Rattle.grove_edits.specs.Graph.{Graph};

    /// The state of each edge.
    ghost states: { Self → Graph };

    /// The live edges as they are found from their sources, in edge order.
    ghost children: { Self → List Edge };

    /// The edges that were not Absent as the block opened, in edge order.
    ghost opening: { Self → List Edge };

    /// The state of an edge.
    fn state(&self, edge: &Edge) -> State
        ensures { result ≡ states self.now edge.now };

    /// The edges with a name that are not Absent, in edge order.
    fn edges_named(&self, alloc: Global, name: Name) -> Result<Vec<Edge>, NoMemory>
        ensures named { IfOk result (λ edges. AreNamed (states self.now) name edges.items) };

    /// The least two vertices of the graph with a name.
    fn vertices_named(&self, name: Name) -> Named
        ensures { AreLeastTwo (IsVertexNamed (states self.now) name) result };

    /// The greatest counter of an author in any name of the graph, and 0 where no name is by the author.
    fn greatest(&self, author: u32) -> u64
        ensures { IsGreatest (IsNameOf (states self.now)) author result };

    /// How many live edges lead from a position of a vertex.
    fn child_count(&self, vertex: &Vertex, position: Position) -> usize
        ensures { result ≡ length (children_of vertex.now position (children self.now)) };

    /// The live edge from a position of a vertex that has an index, or None past the last one.
    fn child(&self, vertex: &Vertex, position: Position, index: usize) -> Option<Edge>
        ensures { result ≡ slice_get (children_of vertex.now position (children self.now)) index };

    /// All live edges from a position of a vertex, in edge order.
    fn children_at(
        &self,
        alloc: Global,
        vertex: &Vertex,
        position: Position,
    ) -> Result<Vec<Edge>, NoMemory>
        ensures { IfOk result (λ edges. edges.items ≡ children_of vertex.now position (children self.now)) };

    /// Whether the second vertex stands on the walk up from the first.
    fn leads_to(&self, from: &Vertex, vertex: &Vertex) -> bool
        ensures { result ≡ leads_to (Self.live self.now) from.now vertex.now };

    /// Whether an edge was not Absent as the block opened.
    fn was_open(&self, edge: &Edge) -> bool
        ensures { result ≡ holds_edge edge.now (opening self.now) };

    /// What is known of every view. It does nothing, and costs nothing.
    fn known(&self)
        ensures in_order { IsInEdgeOrder (opening self.now) }
        ensures finite { IsFinite (states self.now) };
}
