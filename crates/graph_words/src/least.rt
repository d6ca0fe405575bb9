ghost use Rattle.std.specs.Prelude.{◌≡◌, if◌then◌else◌};
ghost use Rattle.std.specs.Ordering.{is_gt};
ghost use Rattle.grove_edits.specs.Vertex.{vertex_cmp};

use grove_edits::{Vertex, compare_vertices};
use std::cmp::Ordering;

/// The lesser of two vertices, and the first of two that are one.
pub fn lesser(a: &Vertex, b: &Vertex) -> Vertex
    ensures { result ≡ (if is_gt (vertex_cmp a.now b.now) then b.now else a.now) }
{
    match compare_vertices(a, b) {
        Ordering::Less | Ordering::Equal => *a,
        Ordering::Greater => *b,
    }
}
