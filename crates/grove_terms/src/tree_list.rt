use crate::tree::Tree;
use list_of::ListOf;

/// Trees in order.
pub type TreeList<'g> = ListOf<Tree<'g>>;
