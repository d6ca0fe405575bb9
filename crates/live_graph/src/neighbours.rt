ghost use Rattle.std.specs.Prelude.{◌≡◌, map};
ghost use Rattle.grove_edits.specs.Edge.{edge_cmp};
ghost use Rattle.graph_words.specs.Live.{children_of, parents_of};
ghost use Rattle.edge_numbers.specs.Numbered.{edge_at, vertex_at, IsVertexNumber};
ghost use Rattle.edge_lists.specs.Lists.{AreEdgeNumbers};
ghost use Rattle.edge_lists.specs.Order.{position_first};
ghost use Rattle.live_graph.specs.Around.{AreAround, source_of, target_of};
ghost use Rattle.live_graph.specs.Live.{live};

use edge_lists::{ByEdge, ByPosition, EdgeLists, LentNumbers};
use edge_numbers::EdgeNumbers;
use grove_edits::Vertex;
use grove_sorts::Position;

/// The numbers of the live edges from a position of a vertex.
pub(crate) fn children_at<'g>(
    edges: &EdgeNumbers,
    children: &'g EdgeLists<ByPosition>,
    vertex: &Vertex,
    position: Position,
) -> LentNumbers<'g>
    requires { AreAround source_of position_first edges.now children.now }
    ensures known { AreEdgeNumbers edges.now result }
    ensures edges { map (edge_at edges.now) result ≡ children_of vertex.now position (live edges.now.entries) }
{
    // Nothing has two numbers, and the ends of what has one are among the vertices.
    let _edges = edges.edge_count();
    let _vertices = edges.vertex_count();
    let Some(number) = edges.vertex_number(vertex) else {
        return children.none();
    };
    if number >= children.vertex_count() {
        return children.none();
    }
    children.at_position(number, position, edges)
}

/// The numbers of the live edges to the vertex with a number.
pub(crate) fn parents_of_number<'g>(
    edges: &EdgeNumbers,
    parents: &'g EdgeLists<ByEdge>,
    number: usize,
) -> LentNumbers<'g>
    requires around { AreAround target_of edge_cmp edges.now parents.now }
    requires number { IsVertexNumber edges.now number }
    ensures known { AreEdgeNumbers edges.now result }
    ensures edges { map (edge_at edges.now) result ≡ parents_of (vertex_at edges.now number) (live edges.now.entries) }
{
    // Nothing has two numbers.
    let _edges = edges.edge_count();
    let _vertices = edges.vertex_count();
    if number >= parents.vertex_count() {
        return parents.none();
    }
    parents.at(number)
}

/// The numbers of the live edges to a vertex.
pub(crate) fn parents_at<'g>(
    edges: &EdgeNumbers,
    parents: &'g EdgeLists<ByEdge>,
    vertex: &Vertex,
) -> LentNumbers<'g>
    requires { AreAround target_of edge_cmp edges.now parents.now }
    ensures known { AreEdgeNumbers edges.now result }
    ensures edges { map (edge_at edges.now) result ≡ parents_of vertex.now (live edges.now.entries) }
{
    // The ends of what has a number are among the vertices, so nothing leads to a vertex that has none.
    let _edges = edges.edge_count();
    match edges.vertex_number(vertex) {
        Some(number) => parents_of_number(edges, parents, number),
        None => parents.none(),
    }
}
