ghost use Rattle.std.specs.Prelude.{◌≡◌};
ghost use Rattle.graph_table.specs.Table.{IsIndex};

use crate::graph_table::GraphTable;
use edit_table::LentVertex;
use grove_edits::Edge;
use grove_names::Name;
use grove_sorts::Position;
use std::fmt;

/// The edge of an edit of a graph, lent.
#[derive(Clone, Copy)]
pub struct GraphEdge<'g> {
    graph: &'g GraphTable,
    index: u32,
    ghost is_index: { IsIndex graph.now index },
}

impl fmt::Debug for GraphEdge<'_> {
    fn fmt<W: fmt::Write>(&self, f: &mut fmt::Formatter<W>) -> fmt::Result {
        write!(f, "edge {}", self.index)
    }
}

impl<'g> GraphEdge<'g> {
    ghost use Rattle.graph_table.specs.Table.{edge_at};
    ghost use Rattle.graph_table.specs.GraphEdge.{graph_edge};
    ghost use Rattle.edit_table.specs.Lent.{lent_vertex};

    /// The edge of the edit at an index.
    pub(crate) fn at(graph: &'g GraphTable, index: u32) -> GraphEdge<'g>
        requires { IsIndex graph.now index }
        ensures { graph_edge result ≡ edge_at graph.now index }
    {
        GraphEdge { graph, index }
    }

    /// The name of the edge.
    pub fn name(&self) -> Name
        ensures { result ≡ (graph_edge self.now).name }
    {
        self.graph.name(self.index as usize)
    }

    /// The position at which the edge stands.
    pub fn position(&self) -> Position
        ensures { result ≡ (graph_edge self.now).position }
    {
        self.graph.position(self.index as usize)
    }

    /// The vertex to which the edge leads.
    pub fn target(&self) -> LentVertex<'g>
        ensures { lent_vertex result ≡ (graph_edge self.now).target }
    {
        let graph = self.graph;
        graph.lent_target(self.index as usize)
    }

    /// The edge itself, in its whole width: where a part of it does, take that.
    pub fn edge(&self) -> Edge
        ensures { result ≡ graph_edge self.now }
    {
        let graph = self.graph;
        Edge {
            name: self.name(),
            source: graph.lent_source(self.index as usize).vertex(),
            position: self.position(),
            target: self.target().vertex(),
        }
    }
}
