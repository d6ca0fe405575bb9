use grove_names::Name;
use grove_sorts::Position;

/// An edge by the numbers of its ends.
#[derive(Clone, Copy, Debug, PartialEq, Eq, PartialOrd, Ord, Hash)]
pub struct NarrowEdge {
    pub name: Name,
    pub source: u32,
    pub target: u32,
    pub position: Position,
}

// One is kept for each edge.
const _: () = prove!(std::mem::size_of::<NarrowEdge>() == 32);
