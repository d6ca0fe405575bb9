use grove_edits::Vertex;

/// The vertices of a graph that have one name: the least two of them.
#[derive(Clone, Copy, Debug, PartialEq, Eq)]
pub enum Named {
    Zero,
    One(Vertex),
    /// In vertex order.
    More(Vertex, Vertex),
}
