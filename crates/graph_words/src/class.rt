/// How a vertex heads a tree of the grove, if it does.
#[derive(Clone, Copy, Debug, PartialEq, Eq)]
pub enum Class {
    /// No live edge leads to it, and it heads a tree.
    NoParent,
    /// Two or more live edges lead to it, and it heads a tree.
    Multi,
    /// It is the least vertex of a cycle on which each vertex has one live parent edge, and heads a tree.
    Cycle,
    /// It has one live parent edge and stands in the tree of another vertex.
    Inner,
}
