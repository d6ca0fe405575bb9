ghost use Rattle.std.specs.Prelude.{◌≡◌, true, IfOk, OnOk, ◌++◌};
ghost use Rattle.grove_edits.specs.Edit.{edit_edge, edit_kind};
ghost use Rattle.edit_ranges.specs.Ranges.{are_ranges};
ghost use Rattle.edit_ranges.specs.Facts.{are_alone, are_around, between_facts, between_next, is_deletion, is_next};

use crate::fact::Fact;
use crate::name_range::NameRange;
use crate::telling::tell;
use crate::told::Told;
use grove_edits::{Edit, EditKind};
use grove_names::Name;
use std::alloc::Global;
use text_parts::NoMemory;

/// The names of vertices between those of deleted edges of a canonical list. An author names a vertex and then the edge to it, so without
/// these no range would tell of two edges.
pub(crate) fn between_facts(
    alloc: Global,
    shared: &[NameRange],
    edits: &[Edit],
) -> Result<Vec<Fact>, NoMemory>
    requires { are_ranges shared.now ≡ true }
    ensures { IfOk result (λ facts. facts.items ≡ between_facts shared.now edits.now) }
{
    let mut facts = Vec::new(alloc);
    let mut rest = edits;
    while let [first, later @ ..] = rest {
        push_between(shared, first, later, &mut facts)?;
        rest = later;
    }
    Ok(facts)
}

fn push_between(
    shared: &[NameRange],
    before: &Edit,
    later: &[Edit],
    facts: &mut Vec<Fact>,
) -> Result<(), NoMemory>
    requires { are_ranges shared.now ≡ true }
    ensures { OnOk result (facts.new.items ≡ facts.old.items ++ between_next shared.now before.now later.now) }
{
    let [behind, ..] = later else {
        return Ok(());
    };
    if are_around(before, behind) && are_alone(shared, before, behind) {
        facts.push(Fact {
            told: Told::Deleted,
            name: behind.target().name,
        })?;
    }
    Ok(())
}

fn are_around(before: &Edit, behind: &Edit) -> bool
    ensures { result ≡ are_around before.now behind.now }
{
    let name = behind.target().name;
    is_deletion(before.kind())
        && is_deletion(behind.kind())
        && is_next(before.name(), name)
        && is_next(name, behind.name())
}

fn are_alone(shared: &[NameRange], before: &Edit, behind: &Edit) -> bool
    requires { are_ranges shared.now ≡ true }
    ensures { result ≡ are_alone shared.now before.now behind.now }
{
    !tell(shared, Told::Named, before.name()) && !tell(shared, Told::Named, behind.name())
}

fn is_deletion(kind: EditKind) -> bool
    ensures { result ≡ is_deletion kind }
{
    match kind {
        EditKind::Insert => false,
        EditKind::Delete => true,
    }
}

fn is_next(name: Name, next: Name) -> bool
    ensures { result ≡ is_next name next }
{
    name.author == next.author && name.counter < next.counter && next.counter - name.counter == 1
}
