ghost use Rattle.std.specs.Prelude.{◌≡◌};
ghost use Rattle.std.specs.Cmp.{IsTotalOrder};
ghost use Rattle.std.specs.declared.cmp.Ordering.TheVariants.{Equal};
ghost use Rattle.grove_names.specs.declared.name.Name.{Name};
ghost use Rattle.grove_names.specs.Name.{name_cmp};

use std::cmp::Ordering;

/// The name of a vertex or an edge, ordered by author and then counter.
#[derive(Clone, Copy, Debug, PartialEq, Eq, PartialOrd, Ord, Hash)]
pub struct Name {
    pub author: u32,
    pub counter: u64,
}

/// Names are compared by author and then counter. This order is total, and only equal names compare equal.
pub fn names_are_ordered(a: &Name, b: &Name) -> Ordering
    ensures by_author_then_counter { result ≡ name_cmp a.now b.now }
    ensures total { IsTotalOrder name_cmp }
    ensures exact { (x y : Name) → name_cmp x y ≡ Equal → x ≡ y }
{
    a.cmp(b)
}
