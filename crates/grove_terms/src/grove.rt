use crate::tree_list::TreeList;

/// The trees of a graph, each list in the order of the vertices that head them.
#[derive(Debug, Drop)]
pub struct Grove<'g> {
    /// Headed by the vertices without a live parent edge.
    pub none: TreeList<'g>,
    /// Headed by the vertices with two or more.
    pub multi: TreeList<'g>,
    /// Headed by the least vertices of the cycles.
    pub cycle: TreeList<'g>,
}
