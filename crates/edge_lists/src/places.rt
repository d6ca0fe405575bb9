ghost use Rattle.std.specs.Prelude.{◌≡◌, ℕ, ◌<◌, map};
ghost use Rattle.edge_numbers.specs.Numbered.{edge_at, IsEdgeNumber};
ghost use Rattle.edge_lists.specs.Lists.{AreEdgeNumbers};
ghost use Rattle.edge_lists.specs.Order.{IsInOrder, position_first};
ghost use Rattle.edge_lists.specs.Places.{place, place_of_position, is_up_to};
ghost use Rattle.grove_sorts.specs.Position.{position_cmp};

use crate::lent_numbers::LentNumbers;
use crate::list_order::ListOrder;
use edge_numbers::EdgeNumbers;
use grove_sorts::Position;
use std::cmp::Ordering;

/// How many first numbers of a list are of edges before an edge.
pub(crate) fn place_in<O: ListOrder>(
    list: &LentNumbers<'_>,
    edge: usize,
    edges: &EdgeNumbers,
) -> usize
    requires known { AreEdgeNumbers edges.now list.now }
    requires edge { IsEdgeNumber edges.now edge }
    requires in_order { IsInOrder O.order (map (edge_at edges.now) list.now) }
    ensures { result ≡ place O.order edges.now edge list.now }
{
    let mut low = 0;
    let mut high = list.len();
    while low < high {
        let middle = low + (high - low) / 2;
        if O::compare(edges, list.number(middle), edge).is_lt() {
            low = middle + 1;
        } else {
            high = middle;
        }
    }
    low
}

// Whether one position is before another, or is it where that counts.
fn is_before(a: Position, b: Position, itself: bool) -> bool
    ensures { result ≡ is_up_to itself (position_cmp a b) }
{
    match a.cmp(&b) {
        Ordering::Less => true,
        Ordering::Equal => itself,
        Ordering::Greater => false,
    }
}

/// How many first numbers of a list are of edges from positions before this one, or from this one where it counts itself.
pub(crate) fn place_of(
    list: &LentNumbers<'_>,
    position: Position,
    itself: bool,
    edges: &EdgeNumbers,
) -> usize
    requires known { AreEdgeNumbers edges.now list.now }
    requires in_order { IsInOrder position_first (map (edge_at edges.now) list.now) }
    ensures { result ≡ place_of_position itself position edges.now list.now }
{
    let mut low = 0;
    let mut high = list.len();
    while low < high {
        let middle = low + (high - low) / 2;
        if is_before(edges.position(list.number(middle)), position, itself) {
            low = middle + 1;
        } else {
            high = middle;
        }
    }
    low
}
