ghost use Rattle.std.specs.Prelude.{◌≡◌, ◌≢◌, ◌==◌, ◌<◌, ◌≤◌, ◌↔◌, length, Contains, IsSome, IfSome, IfNone, slice_get};
ghost use Rattle.std.specs.Option.{option_map};
ghost use Rattle.grove_sorts.specs.Ctor.{sort_of_ctor, positions, sort_in, sort_at, first_in, first_position};
ghost use Rattle.grove_sorts.specs.Position.{position_number};
ghost use Rattle.grove_sorts.specs.Sort.{sort_number};
ghost use Rattle.grove_sorts.specs.declared.position.Position.{Position};
ghost use Rattle.grove_sorts.specs.declared.sort.Sort.{Sort};

use crate::ctor::Ctor;
use crate::plain::Plain;
use crate::position::Position;
use crate::sort::Sort;

/// The sort of a constructor.
pub fn sort_of(ctor: &Ctor) -> Sort
    ensures { result ≡ sort_of_ctor ctor.now }
{
    match ctor {
        Ctor::Var(_) | Ctor::Num(_) => Sort::Exp,
        Ctor::PVar(_) => Sort::Pat,
        _ => Plain::known(ctor).sort(),
    }
}

// The positions of a constructor in table order, each with the sort of its children.
fn positions(ctor: &Ctor) -> &'static [(Position, Sort)]
    ensures { result.now ≡ positions ctor.now }
{
    match Plain::of(ctor) {
        Some(plain) => plain.row().places,
        None => &[],
    }
}

/// How many positions a constructor may have.
pub const WIDEST: usize = 5;

/// How many positions a constructor has.
pub fn position_count(ctor: &Ctor) -> usize
    ensures { result ≡ length (positions ctor.now) }
{
    positions(ctor).len()
}

/// The position at an index of the constructor's row, from 0 on.
pub fn position_at(ctor: &Ctor, index: usize) -> Option<Position>
    ensures value { result ≡ option_map (λ entry. entry.0) (slice_get (positions ctor.now) index) }
    ensures found { IsSome result ↔ (index < length (positions ctor.now)) }
{
    let (position, _) = place_at(ctor, index)?;
    Some(position)
}

/// The position at an index of the constructor's row, from 0 on, with the sort of its children.
pub fn place_at(ctor: &Ctor, index: usize) -> Option<(Position, Sort)>
    ensures { result ≡ slice_get (positions ctor.now) index }
{
    let place = positions(ctor).get(index)?;
    Some(*place)
}

/// The sort of the children at a position of the constructor.
#[inline(always)]
pub fn position_sort(ctor: &Ctor, position: Position) -> Option<Sort>
    ensures value { result ≡ sort_at ctor.now position }
    ensures found { IfSome result (λ sort. Contains (positions ctor.now) (position, sort)) }
    ensures none { IfNone result ((sort : Sort) → ¬ Contains (positions ctor.now) (position, sort)) }
{
    sort_in(positions(ctor), position)
}

/// The first position, in table order, whose children have the sort.
pub fn first_position_of_sort(ctor: &Ctor, sort: Sort) -> Option<Position>
    ensures value { result ≡ first_position ctor.now sort }
    ensures found { IfSome result (λ position. sort_at ctor.now position ≡ Some sort) }
    ensures first { IfSome result (λ position. (other : Position) → sort_at ctor.now other ≡ Some sort
        → position_number position ≤ position_number other) }
    ensures none { IfNone result ((position : Position) → sort_at ctor.now position ≢ Some sort) }
{
    first_in(positions(ctor), sort)
}

pub(crate) fn sort_in(entries: &[(Position, Sort)], position: Position) -> Option<Sort>
    ensures { result ≡ sort_in entries.now position }
{
    for (place, sort) in entries {
        if is_same_position(*place, position) {
            return Some(*sort);
        }
    }
    None
}

fn first_in(entries: &[(Position, Sort)], sort: Sort) -> Option<Position>
    ensures { result ≡ first_in entries.now sort }
{
    for (place, found) in entries {
        if is_same_sort(*found, sort) {
            return Some(*place);
        }
    }
    None
}

fn is_same_position(a: Position, b: Position) -> bool
    ensures { result ≡ (position_number a == position_number b) }
{
    a == b
}

fn is_same_sort(a: Sort, b: Sort) -> bool
    ensures { result ≡ (sort_number a == sort_number b) }
{
    a == b
}
