use grove_edits::Edge;
use list_of::ListOf;

/// Edges in order.
pub type EdgeList = ListOf<Edge>;
