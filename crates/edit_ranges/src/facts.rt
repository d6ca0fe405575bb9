ghost use Rattle.std.specs.Prelude.{◌≡◌, IfOk, OnOk, ◌++◌, ◌∷◌, []};
ghost use Rattle.std.specs.List.{flat_map};
ghost use Rattle.grove_edits.specs.Edit.{edit_edge};
ghost use Rattle.edit_ranges.specs.Facts.{begins_with_name, fact, facts_of_edit, shared_facts};

use crate::fact::Fact;
use crate::told::Told;
use grove_edits::{Edit, EditKind};
use grove_names::Name;
use std::alloc::Global;
use text_parts::NoMemory;

/// The names that several edges of a canonical list have.
pub(crate) fn shared_facts(alloc: Global, edits: &[Edit]) -> Result<Vec<Fact>, NoMemory>
    ensures { IfOk result (λ facts. facts.items ≡ shared_facts edits.now) }
{
    let mut facts = Vec::new(alloc);
    let mut rest = edits;
    while let [first, later @ ..] = rest {
        let name = first.name();
        if begins_with_name(later, name) {
            facts.push(Fact {
                told: Told::Named,
                name,
            })?;
        }
        rest = later;
    }
    Ok(facts)
}

fn begins_with_name(edits: &[Edit], name: Name) -> bool
    ensures { result ≡ begins_with_name name edits.now }
{
    match edits {
        [] => false,
        [first, ..] => first.name() == name,
    }
}

/// What edits tell: the names of their edges and of the vertices at the ends, and which edges are deleted.
pub(crate) fn facts_of(alloc: Global, edits: &[Edit]) -> Result<Vec<Fact>, NoMemory>
    ensures { IfOk result (λ facts. facts.items ≡ flat_map facts_of_edit edits.now) }
{
    let mut facts = Vec::new(alloc);
    for edit in edits {
        push_facts(edit, &mut facts)?;
    }
    Ok(facts)
}

fn push_facts(edit: &Edit, facts: &mut Vec<Fact>) -> Result<(), NoMemory>
    ensures { OnOk result (facts.new.items ≡ facts.old.items ++ facts_of_edit edit.now) }
{
    push_named(edit.name(), facts)?;
    push_named(edit.source().name, facts)?;
    push_named(edit.target().name, facts)?;
    if edit.kind() == EditKind::Delete {
        facts.push(Fact {
            told: Told::Deleted,
            name: edit.name(),
        })?;
    }
    Ok(())
}

fn push_named(name: Name, facts: &mut Vec<Fact>) -> Result<(), NoMemory>
    ensures { OnOk result (facts.new.items ≡ facts.old.items ++ fact Told.Named name ∷ []) }
{
    facts.push(Fact {
        told: Told::Named,
        name,
    })?;
    Ok(())
}
