ghost use Rattle.std.specs.Prelude.{◌≡◌, ◌<◌, ◌^◌, List, Some, length, slice_get, IfOk, OnOk};
ghost use Rattle.indexmap.specs.IndexSet.{insert_key};
ghost use Rattle.grove_sorts.specs.declared.ctor.Ctor.{Ctor};
ghost use Rattle.edit_table.specs.declared.vertex_key.VertexKey.{VertexKey};
ghost use Rattle.edit_table.specs.Keys.{vertices_of};
ghost use Rattle.edit_table.specs.Records.{edits_of, AreRecords};
ghost use Rattle.edit_table.specs.Renumbered.{AreRenumbered, DifferInNumber, HasNewEnds};

use crate::record::Record;
use crate::vertex_key::{NONE, VertexKey};
use std::alloc::Global;
use text_parts::NoMemory;

/// Numbers the vertices of records anew, in the order in which they are met there; the root stays number 0. Gives their keys by the new
/// numbers.
pub(crate) fn renumber(
    alloc: Global,
    keys: &[VertexKey],
    records: &mut Vec<Record>,
) -> Result<Vec<VertexKey>, NoMemory>
    requires { (ctors : List Ctor) × AreRecords ctors keys.now records.old.items }
    ensures records { IfOk result (λ met. (ctors : List Ctor) → AreRecords ctors keys.now records.old.items → AreRecords ctors met.items records.new.items) }
    ensures edits { IfOk result (λ met. (ctors : List Ctor) → AreRecords ctors keys.now records.old.items
        → edits_of (vertices_of ctors met.items) records.new.items ≡ edits_of (vertices_of ctors keys.now) records.old.items) }
{
    let mut numbers = Vec::new(alloc);
    numbers.resize(keys.len(), NONE)?;
    let mut met = Vec::with_capacity(alloc, keys.len())?;
    number_of(keys, &mut numbers, &mut met, 0)?;
    for index in 0..records.len() {
        let numbered = renumbered(keys, &mut numbers, &mut met, records[index])?;
        records[index] = numbered;
    }
    Ok(met)
}

// A record by the new numbers of its ends, which get the next ones where they have none.
fn renumbered(
    keys: &[VertexKey],
    numbers: &mut Vec<u32>,
    met: &mut Vec<VertexKey>,
    old: Record,
) -> Result<Record, NoMemory>
    requires numbers { AreRenumbered keys.now numbers.old.items met.old.items }
    requires once { DifferInNumber keys.now }
    requires source { old.source < length keys.now }
    requires target { old.target < length keys.now }
    ensures numbers { OnOk result (AreRenumbered keys.now numbers.new.items met.new.items) }
    ensures record { IfOk result (HasNewEnds ⟦<VertexKey as PartialEq>⟧.eq keys.now met.old.items met.new.items old) }
{
    let source = number_of(keys, numbers, met, old.source)?;
    let target = number_of(keys, numbers, met, old.target)?;
    Ok(Record {
        name: old.name,
        source,
        target,
        position: old.position,
        kind: old.kind,
    })
}

// The new number of the vertex with an old one, which gets the next one where it has none.
fn number_of(
    keys: &[VertexKey],
    numbers: &mut Vec<u32>,
    met: &mut Vec<VertexKey>,
    old: u32,
) -> Result<u32, NoMemory>
    requires numbers { AreRenumbered keys.now numbers.old.items met.old.items }
    requires once { DifferInNumber keys.now }
    requires within { old < length keys.now }
    ensures numbers { OnOk result (AreRenumbered keys.now numbers.new.items met.new.items) }
    ensures number { IfOk result (λ number. slice_get met.new.items number ≡ slice_get keys.now old) }
    ensures met { OnOk result ((key : VertexKey) → slice_get keys.now old ≡ Some key → met.new.items ≡ insert_key ⟦<VertexKey as PartialEq>⟧.eq met.old.items key) }
{
    let number = numbers[old as usize];
    if number != NONE {
        return Ok(number);
    }
    let Ok(next) = u32::try_from(met.len()) else {
        return Err(NoMemory);
    };
    if next == NONE {
        return Err(NoMemory);
    }
    met.push(keys[old as usize])?;
    numbers[old as usize] = next;
    Ok(next)
}
