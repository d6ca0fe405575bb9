//! The opening edges of a name, in the canonical list of the opening graph.
ghost use Rattle.std.specs.Prelude.{◌≡◌, ◌≤◌, true, false, length};
ghost use Rattle.std.specs.List.{list_any};
ghost use Rattle.std.specs.List.Sorted.{IsPartitionPoint};
ghost use Rattle.grove_names.specs.Name.{name_cmp};
ghost use Rattle.grove_edits.specs.Edit.{edit_edge};
ghost use Rattle.grove_edits.specs.Graph.{Ascends};
ghost use Rattle.author_desk.specs.Lines.{has_name, is_before, is_up_to, slots_from};
ghost use Rattle.author_desk.specs.Cuts.{SeatRaises};

use edge_board::{Board, BoardSeat};
use grove_edits::Edit;
use grove_names::Name;
use std::cmp::Ordering;

fn order(edit: &Edit, name: Name) -> Ordering
    ensures { result ≡ name_cmp (edit_edge edit.now).name name }
{
    edit.name().cmp(&name)
}

// How many edges have a name before this one.
fn count_before(opening: &[Edit], name: Name) -> usize
    requires { Ascends opening.now }
    ensures within { result ≤ length opening.now }
    ensures parted { IsPartitionPoint (λ edit. is_before name edit ≡ true) (λ edit. is_before name edit ≡ false) opening.now result }
{
    opening.partition_point(|edit| order(edit, name).is_lt())
}

// How many edges have this name or one before it.
fn count_up_to(opening: &[Edit], name: Name) -> usize
    requires { Ascends opening.now }
    ensures within { result ≤ length opening.now }
    ensures parted { IsPartitionPoint (λ edit. is_up_to name edit ≡ true) (λ edit. is_up_to name edit ≡ false) opening.now result }
{
    opening.partition_point(|edit| order(edit, name).is_le())
}

/// Raises the slot of each opening edge of a name, and says whether there is any. An edge's slot is its index in the list.
pub(crate) fn raise_edges_named(
    board: &Board,
    seat: &mut BoardSeat,
    opening: &[Edit],
    name: Name,
) -> bool
    requires in_order { Ascends opening.now }
    requires slots { length board.now.opening ≡ length opening.now }
    requires board { seat.old.board ≡ board.now }
    ensures any { result ≡ list_any (has_name name) opening.now }
    ensures raised { SeatRaises seat.old seat.new (slots_from 0 name opening.now) }
{
    let first = count_before(opening, name);
    let end = count_up_to(opening, name);
    for slot in first..end {
        board.raise(seat, slot);
    }
    first < end
}
