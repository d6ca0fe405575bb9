ghost use Rattle.std.specs.Prelude.{◌≡◌, ◌<◌, length, slice_index_or};
ghost use Rattle.grove_edits.specs.Vertex.{vertex_cmp, root};
ghost use Rattle.grove_edits.specs.Edge.{edge_cmp};
ghost use Rattle.edge_numbers.specs.Narrow.{edge_of, HasEnds};

use crate::narrow_edge::NarrowEdge;
use grove_edits::{Vertex, compare_vertices};
use std::cmp::Ordering;

// The order of two vertices by their numbers. The vertices are read only where the numbers differ.
fn compare_by_number(vertices: &[Vertex], a: u32, b: u32) -> Ordering
    requires first { a < length vertices.now }
    requires second { b < length vertices.now }
    ensures { result ≡ vertex_cmp (slice_index_or vertices.now a root) (slice_index_or vertices.now b root) }
{
    if a == b {
        return Ordering::Equal;
    }
    compare_vertices(&vertices[a as usize], &vertices[b as usize])
}

/// The order of two edges. Most have names of their own, so most ends are not looked at.
pub(crate) fn compare_edges(vertices: &[Vertex], a: &NarrowEdge, b: &NarrowEdge) -> Ordering
    requires first { HasEnds vertices.now a.now }
    requires second { HasEnds vertices.now b.now }
    ensures { result ≡ edge_cmp (edge_of vertices.now a.now) (edge_of vertices.now b.now) }
{
    let by_name = a.name.cmp(&b.name);
    if by_name != Ordering::Equal {
        return by_name;
    }
    let by_source = compare_by_number(vertices, a.source, b.source);
    if by_source != Ordering::Equal {
        return by_source;
    }
    let by_position = a.position.cmp(&b.position);
    if by_position != Ordering::Equal {
        return by_position;
    }
    compare_by_number(vertices, a.target, b.target)
}
