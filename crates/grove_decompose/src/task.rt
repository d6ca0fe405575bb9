use grove_sorts::{Position, Sort};

/// A part of a tree that is still to be listed, of a graph whose vertices are found by `S` and its edges by `L`.
#[derive(Clone, Copy, Debug)]
pub(crate) enum Task<S, L> {
    /// What stands at a position of a vertex.
    Place {
        spot: S,
        position: Position,
        sort: Sort,
        depth: u64,
    },
    /// A child, and what stands under it.
    Child {
        link: L,
        depth: u64,
    },
}
