use crate::marked_tree_list::MarkedTreeList;

/// The marked trees of a grove, each list in the order of the grove's.
#[derive(Debug, Drop)]
pub struct MarkedGrove<'n, 't: 'n> {
    /// Headed by the vertices without a live parent edge.
    pub none: MarkedTreeList<'n, 't>,
    /// Headed by the vertices with two or more.
    pub multi: MarkedTreeList<'n, 't>,
    /// Headed by the least vertices of the cycles.
    pub cycle: MarkedTreeList<'n, 't>,
}
