ghost use Rattle.std.specs.Prelude.{◌≡◌, map, if◌then◌else◌, OnOk, IfOk};
ghost use Rattle.std.specs.List.{AllByRecursion};
ghost use Rattle.grove_edits.specs.declared.vertex.Vertex.{Vertex};
ghost use Rattle.grove_edits.specs.Vertex.{is_same_vertex};
ghost use Rattle.mark_store.specs.Places.{value_at, HasRoom, KeepsRoom};
ghost use Rattle.mark_incremental.specs.Standing.{put_in};
ghost use Rattle.mark_incremental.specs.Applying.{put_back_in};

use grove_edits::Vertex;
use mark_store::{MarkStore, Record};
use std::alloc::Global;
use text_parts::NoMemory;

/// The records that the vertices of some new ones have, if they have one.
pub(crate) fn old_records(
    alloc: Global,
    records: &MarkStore,
    made: &[(Vertex, Record)],
) -> Result<Vec<(Vertex, Option<Record>)>, NoMemory>
    ensures { IfOk result (λ old. old.items ≡ map (λ m. (m.0, value_at records.now m.0)) made.now) }
{
    let mut old = Vec::new(alloc);
    for (vertex, _) in made {
        old.push((*vertex, records.get(vertex)))?;
    }
    Ok(old)
}

fn make_room_for(records: &mut MarkStore, vertex: &Vertex) -> Result<(), NoMemory>
    ensures room { OnOk result (HasRoom records.new vertex.now) }
    ensures unchanged { (v : Vertex) → value_at records.new v ≡ value_at records.old v }
    ensures room_stays { KeepsRoom records.old records.new }
{
    records.reserve_for(&[*vertex])?;
    Ok(())
}

/// Makes room for some records.
pub(crate) fn make_room(records: &mut MarkStore, made: &[(Vertex, Record)]) -> Result<(), NoMemory>
    ensures room { OnOk result (AllByRecursion (λ m. HasRoom records.new m.0) made.now) }
    ensures unchanged { (v : Vertex) → value_at records.new v ≡ value_at records.old v }
    ensures room_stays { KeepsRoom records.old records.new }
{
    for (vertex, _) in made {
        make_room_for(records, vertex)?;
    }
    Ok(())
}

/// Puts records for which there is room.
pub(crate) fn put(records: &mut MarkStore, made: Vec<(Vertex, Record)>)
    requires { AllByRecursion (λ m. HasRoom records.old m.0) made.items }
    ensures put { (v : Vertex) → value_at records.new v ≡ put_in made.items (value_at records.old) v }
    ensures room_stays { KeepsRoom records.old records.new }
{
    let mut left = made;
    while let Some(newest) = left.pop() {
        records.set(&newest.0, newest.1);
    }
}

// Puts the record that a vertex had, if it had one.
fn restore_one(records: &mut MarkStore, vertex: &Vertex, old: Option<Record>)
    requires { HasRoom records.old vertex.now }
    ensures put { (v : Vertex) → value_at records.new v ≡ (if is_same_vertex vertex.now v then old else value_at records.old v) }
    ensures room_stays { KeepsRoom records.old records.new }
{
    match old {
        Some(record) => records.set(vertex, record),
        None => records.clear(vertex),
    }
}

/// Puts the records that vertices had, for which there is room.
pub(crate) fn restore(records: &mut MarkStore, old: &[(Vertex, Option<Record>)])
    requires { AllByRecursion (λ m. HasRoom records.old m.0) old.now }
    ensures put { (v : Vertex) → value_at records.new v ≡ put_back_in old.now (value_at records.old) v }
    ensures room_stays { KeepsRoom records.old records.new }
{
    for (vertex, record) in old {
        restore_one(records, vertex, *record);
    }
}
