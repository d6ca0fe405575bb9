ghost use Rattle.std.specs.Prelude.{◌≡◌};
ghost use Rattle.grove_edits.specs.Vertex.{is_same_vertex, vertex_cmp};

use grove_names::Name;
use grove_sorts::Ctor;
use std::cmp::Ordering;

/// A vertex is its name and its constructor, and is ordered by them.
#[derive(Clone, Copy, Debug, PartialEq, Eq, PartialOrd, Ord, Hash)]
pub struct Vertex {
    pub name: Name,
    pub ctor: Ctor,
}

impl Vertex {
    /// The root of every program, `0.0 root`.
    pub const ROOT: Vertex = Vertex {
        name: Name {
            author: 0,
            counter: 0,
        },
        ctor: Ctor::Root,
    };
}

/// The order of vertices, as definitions name it.
pub fn compare_vertices(a: &Vertex, b: &Vertex) -> Ordering
    ensures { result ≡ vertex_cmp a.now b.now }
{
    a.cmp(b)
}

/// Whether two vertices are one.
pub fn is_same_vertex(a: &Vertex, b: &Vertex) -> bool
    ensures { result ≡ is_same_vertex a.now b.now }
{
    compare_vertices(a, b) == Ordering::Equal
}
