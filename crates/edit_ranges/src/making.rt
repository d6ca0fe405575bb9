ghost use Rattle.std.specs.Prelude.{◌≡◌, true, not, filter, IfOk};
ghost use Rattle.grove_edits.specs.Graph.{graph, Ascends};
ghost use Rattle.edit_ranges.specs.Ranges.{are_ranges};
ghost use Rattle.edit_ranges.specs.Summary.{IsSummaryOf};
ghost use Rattle.edit_ranges.specs.Facts.{is_told_by};

use crate::between::between_facts;
use crate::fact::Fact;
use crate::facts::{facts_of, shared_facts};
use crate::name_range::NameRange;
use crate::ranging::ranges_of;
use crate::summary::Summary;
use crate::telling::tell;
use crate::told::Told;
use grove_edits::Edit;
use std::alloc::Global;
use text_parts::NoMemory;

/// The summary of the graph whose canonical list these edits are.
pub fn summary_of(alloc: Global, edits: &[Edit]) -> Result<Summary, NoMemory>
    requires { Ascends edits.now }
    ensures { IfOk result (λ summary. IsSummaryOf (graph edits.now) summary) }
{
    let shared = ranges_of(alloc, shared_facts(alloc, edits)?)?;
    let mut facts = facts_of(alloc, edits)?;
    leave_out(&shared, &mut facts);
    let between = between_facts(alloc, &shared, edits)?;
    facts.extend_from_slice(&between)?;
    let ranges = ranges_of(alloc, facts)?;
    Ok(Summary { ranges })
}

// Takes the facts out whose names the ranges tell.
fn leave_out(shared: &[NameRange], facts: &mut Vec<Fact>)
    requires { are_ranges shared.now ≡ true }
    ensures { facts.new.items ≡ filter (λ fact. not (is_told_by shared.now fact)) facts.old.items }
{
    facts.retain(|fact| !tell(shared, Told::Named, fact.name));
}
