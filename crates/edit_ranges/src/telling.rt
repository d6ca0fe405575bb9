ghost use Rattle.std.specs.Prelude.{◌≡◌, ◌≤◌, length, true, false};
ghost use Rattle.std.specs.List.Sorted.{IsPartitionPoint};
ghost use Rattle.edit_ranges.specs.Ranges.{are_ranges, ends_before, tell};

use crate::name_range::NameRange;
use crate::told::Told;
use grove_names::Name;

/// Whether one of the ranges tells this of the name, by a binary search.
pub(crate) fn tell(ranges: &[NameRange], told: Told, name: Name) -> bool
    requires { are_ranges ranges.now ≡ true }
    ensures { result ≡ tell ranges.now told name }
{
    let place = count_before(ranges, told, name);
    place < ranges.len() && ranges[place].tells(told, name)
}

// How many ranges end before this of the name.
fn count_before(ranges: &[NameRange], told: Told, name: Name) -> usize
    requires { are_ranges ranges.now ≡ true }
    ensures within { result ≤ length ranges.now }
    ensures parted { IsPartitionPoint (λ range. ends_before range told name ≡ true) (λ range. ends_before range told name ≡ false) ranges.now result }
{
    ranges.partition_point(|range| range.ends_before(told, name))
}
