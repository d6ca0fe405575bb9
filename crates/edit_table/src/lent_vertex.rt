ghost use Rattle.std.specs.Prelude.{◌≡◌};
ghost use Rattle.grove_edits.specs.Vertex.{is_same_vertex, vertex_cmp};
ghost use Rattle.edit_table.specs.Lent.{lent_vertex};

use crate::lent_ctor::{LentCtor, compare_ctors};
use grove_edits::Vertex;
use grove_names::Name;
use std::cmp::Ordering;

/// A vertex as whoever keeps it lends it: its name, and its constructor.
#[derive(Clone, Copy, Debug)]
pub struct LentVertex<'g> {
    pub name: Name,
    pub ctor: LentCtor<'g>,
}

impl<'g> LentVertex<'g> {
    /// A vertex, lent from where it stands.
    pub fn of(vertex: &'g Vertex) -> LentVertex<'g>
        ensures { lent_vertex result ≡ vertex.now }
    {
        LentVertex {
            name: vertex.name,
            ctor: LentCtor::At(&vertex.ctor),
        }
    }

    /// The vertex itself, in its whole width.
    pub fn vertex(&self) -> Vertex
        ensures { result ≡ lent_vertex self.now }
    {
        Vertex {
            name: self.name,
            ctor: self.ctor.ctor(),
        }
    }
}

/// The order of two lent vertices. Their constructors are read only where they share a name.
#[inline(always)]
pub fn compare_lent(a: &LentVertex, b: &LentVertex) -> Ordering
    ensures { result ≡ vertex_cmp (lent_vertex a.now) (lent_vertex b.now) }
{
    match a.name.cmp(&b.name) {
        Ordering::Equal => compare_ctors(&a.ctor, &b.ctor),
        unequal => unequal,
    }
}

/// Whether two lent vertices are one, wherever each stands.
pub fn is_same_lent(a: &LentVertex, b: &LentVertex) -> bool
    ensures { result ≡ is_same_vertex (lent_vertex a.now) (lent_vertex b.now) }
{
    compare_lent(a, b) == Ordering::Equal
}

/// Whether a lent vertex is this one.
pub fn is_lent(lent: &LentVertex, vertex: &Vertex) -> bool
    ensures { result ≡ is_same_vertex (lent_vertex lent.now) vertex.now }
{
    is_same_lent(lent, &LentVertex::of(vertex))
}
