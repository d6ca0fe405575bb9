use grove_names::Name;
use grove_sorts::Position;

/// An edit by its index, in 32 bytes: the name and the position of its edge, the vertex to which it leads, and the last live edge before it
/// from the same vertex. What walks the graph or prints it reads no more of an edge than this.
#[derive(Clone, Copy)]
pub(crate) struct Link {
    pub(crate) name: Name,
    pub(crate) position: Position,
    // The number of that vertex.
    pub(crate) target: u32,
    // One more than the index of that edge, or zero where there is none.
    pub(crate) before: u32,
}
