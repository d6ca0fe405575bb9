ghost use Rattle.std.specs.Prelude.{◌≡◌, IfOk, true};
ghost use Rattle.std.specs.List.{list_any, All};
ghost use Rattle.grove_names.specs.declared.name.Name.{Name};
ghost use Rattle.edit_ranges.specs.declared.told.Told.{Told};
ghost use Rattle.edit_ranges.specs.Ranges.{are_ranges, tell};
ghost use Rattle.edit_ranges.specs.Facts.{FactInRange, is_fact, ranges_of};

use crate::fact::Fact;
use crate::name_range::NameRange;
use std::alloc::Global;
use text_parts::NoMemory;

/// The ranges that tell facts, which may stand in any order and more than once.
pub(crate) fn ranges_of(alloc: Global, facts: Vec<Fact>) -> Result<Vec<NameRange>, NoMemory>
    requires in_range { All FactInRange facts.items }
    ensures in_order { IfOk result (λ ranges. are_ranges ranges.items ≡ true) }
    ensures told { IfOk result (λ ranges. (told : Told) (name : Name) → tell ranges.items told name ≡ list_any (is_fact told name) facts.items) }
{
    let mut facts = facts;
    facts.sort_unstable();
    ranges_of_sorted(alloc, &facts)
}

// The ranges of facts in order.
fn ranges_of_sorted(alloc: Global, facts: &[Fact]) -> Result<Vec<NameRange>, NoMemory>
    ensures { IfOk result (λ ranges. ranges.items ≡ ranges_of facts.now) }
{
    let [first, later @ ..] = facts else {
        return Ok(Vec::new(alloc));
    };
    let mut ranges = Vec::new(alloc);
    let mut current = NameRange::alone(first);
    for fact in later {
        if current.meets(fact) {
            current.last = fact.name.counter;
        } else {
            ranges.push(current)?;
            current = NameRange::alone(fact);
        }
    }
    ranges.push(current)?;
    Ok(ranges)
}
