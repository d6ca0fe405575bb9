use list_of::ListOf;
use marking::MarkedTree;

/// Marked trees in order.
pub type MarkedTreeList<'n, 't> = ListOf<MarkedTree<'n, 't>>;
