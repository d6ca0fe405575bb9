use crate::task::Task;
use std::alloc::Global;

/// The lists by which a tree is listed, in a graph whose vertices are found by `S` and its edges by `L`. They are kept from tree to
/// tree: a graph may have many trees of few nodes each, and to make lists anew for each of them would cost more than to fill them.
#[derive(Drop)]
pub struct Room<S, L> {
    /// The children of a position.
    pub(crate) links: Vec<L>,
    /// What is still to be listed.
    pub(crate) tasks: Vec<Task<S, L>>,
}

impl<S, L> Room<S, L> {
    /// Empty lists, which take no memory yet.
    pub fn new(alloc: Global) -> Room<S, L> {
        Room {
            links: Vec::new(alloc),
            tasks: Vec::new(alloc),
        }
    }
}
