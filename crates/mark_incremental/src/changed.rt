ghost use Rattle.std.specs.Prelude.{◌≡◌, ◌↔◌, Bool, Option, true, IsTrue, IfOk, IfSome, OnOk, reverse, if◌then◌else◌};
ghost use Rattle.std.specs.Option.{option_map};
ghost use Rattle.grove_edits.specs.declared.vertex.Vertex.{Vertex};
ghost use Rattle.grove_edits.specs.Vertex.{is_same_vertex, stands_in};
ghost use Rattle.graph_words.specs.Whole.{IsInVertexOrder};
ghost use Rattle.graph_words.specs.States.{Entries};
ghost use Rattle.mark_store.specs.declared.record.Record.{Record};
ghost use Rattle.mark_store.specs.Places.{holds};
ghost use Rattle.mark_incremental.specs.Reading.{IsRecordOf, AreRecordsOf};
ghost use Rattle.mark_incremental.specs.Standing.{KeptMarks, records_in};
ghost use Rattle.mark_incremental.specs.Applying.{put_back_in, roots_back};
ghost use Rattle.mark_incremental.specs.Changed.{IsJudgedAlike, AreJudgedOtherwise};
ghost use Rattle.mark_incremental.specs.Receipts.{Held, held, HaveLed};
ghost use Rattle.mark_incremental.specs.Before.{judgement_by, record_before, root_before, HoldsListed, WereBefore};

use crate::applying::OldRecords;
use crate::applying_all::Receipt;
use crate::marks::Marks;
use crate::walks_up::holds;
use grove_edits::Vertex;
use mark_store::{Record, VertexMap};
use seeded_hash::HashSeed;
use std::alloc::Global;
use text_parts::NoMemory;

/// What the vertices of some receipts were before the first of them.
#[derive(Drop)]
pub(crate) struct Before {
    // These vertices, some of them often.
    pub(crate) vertices: Vec<Vertex>,
    // The record that a vertex had, if it had one, where a receipt has an old record of it.
    pub(crate) records: VertexMap<Option<Record>>,
    // Whether it was the root of a cycle, where a receipt tells that.
    pub(crate) roots: VertexMap<bool>,
}

impl Before {
    fn with_seed(alloc: Global, seed: HashSeed) -> Before
        ensures listed { HoldsListed result }
        ensures records { (found : Vertex → Option Record) (v : Vertex) → record_before result.records found v ≡ found v }
        ensures roots { (found : Vertex → Bool) (v : Vertex) → root_before result.roots found v ≡ found v }
    {
        Before {
            vertices: Vec::new(alloc),
            records: VertexMap::with_seed(alloc, seed),
            roots: VertexMap::with_seed(alloc, seed),
        }
    }
}

// Holds the record that a vertex had, if it had one.
fn hold_record(before: &mut Before, vertex: &Vertex, old: Option<Record>) -> Result<(), NoMemory>
    requires { HoldsListed before.old }
    ensures listed { OnOk result (HoldsListed before.new) }
    ensures records { OnOk result ((found : Vertex → Option Record) (v : Vertex) → record_before before.new.records found v ≡ (if is_same_vertex vertex.now v then old else record_before before.old.records found v)) }
    ensures roots { OnOk result (before.new.roots ≡ before.old.roots) }
{
    before.vertices.push(*vertex)?;
    before.records.insert(vertex, old)?;
    Ok(())
}

// Holds whether a vertex was the root of a cycle.
fn hold_root(before: &mut Before, vertex: &Vertex, was_root: bool) -> Result<(), NoMemory>
    requires { HoldsListed before.old }
    ensures listed { OnOk result (HoldsListed before.new) }
    ensures roots { OnOk result ((found : Vertex → Bool) (v : Vertex) → root_before before.new.roots found v ≡ (if is_same_vertex vertex.now v then was_root else root_before before.old.roots found v)) }
    ensures records { OnOk result (before.new.records ≡ before.old.records) }
{
    before.vertices.push(*vertex)?;
    before.roots.insert(vertex, was_root)?;
    Ok(())
}

// Holds the records that some vertices had.
fn hold_records(before: &mut Before, old: &[(Vertex, Option<Record>)]) -> Result<(), NoMemory>
    requires { HoldsListed before.old }
    ensures listed { OnOk result (HoldsListed before.new) }
    ensures records { OnOk result ((found : Vertex → Option Record) (v : Vertex) → record_before before.new.records found v ≡ put_back_in old.now (record_before before.old.records found) v) }
    ensures roots { OnOk result (before.new.roots ≡ before.old.roots) }
{
    for (vertex, record) in old {
        hold_record(before, vertex, *record)?;
    }
    Ok(())
}

// Holds what a renewal replaced, in place of what later ones did.
fn hold_old(before: &mut Before, old: &OldRecords) -> Result<(), NoMemory>
    requires { HoldsListed before.old }
    ensures listed { OnOk result (HoldsListed before.new) }
    ensures records { OnOk result ((found : Vertex → Option Record) (v : Vertex) → record_before before.new.records found v ≡ put_back_in old.now.records.items (record_before before.old.records found) v) }
    ensures roots { OnOk result ((found : Vertex → Bool) (v : Vertex) → root_before before.new.roots found v ≡ roots_back old.now.root (root_before before.old.roots found) v) }
{
    hold_records(before, &old.records)?;
    if let Some((root, was_root)) = &old.root {
        hold_root(before, root, *was_root)?;
    }
    Ok(())
}

// Whether two records have the same mode, type and mark.
fn is_same_judgement(old: &Record, new: &Record) -> bool
    ensures { IsTrue result ↔ ((old.now.mode ≡ new.now.mode) × (old.now.typ ≡ new.now.typ) × (old.now.mark ≡ new.now.mark)) }
{
    old.mode == new.mode && old.typ == new.typ && old.mark == new.mark
}

// Puts vertices in order, and each there once.
fn sort_vertices(vertices: &mut Vec<Vertex>)
    ensures in_order { IsInVertexOrder vertices.new.items }
    ensures same { (v : Vertex) → stands_in v vertices.new.items ≡ stands_in v vertices.old.items }
{
    vertices.sort_unstable();
    vertices.dedup();
}

impl Marks {
    // What the vertices of some receipts were before the first of them, where the last of them led to these marks.
    fn before_all(&self, receipts: &[Receipt<'_>]) -> Result<Before, NoMemory>
        ensures listed { IfOk result HoldsListed }
        ensures were { (was : Held) (entries : Entries) → HaveLed (reverse receipts.now) was (held entries self.now) → AreRecordsOf was.marks.types was.marks.contexts was.marks.records
            → IfOk result (WereBefore was.marks self.now) }
    {
        let mut before = Before::with_seed(self.alloc, self.seed);
        let mut left = receipts.len();
        while left > 0 {
            left -= 1;
            hold_old(&mut before, &receipts[left].applied.old)?;
        }
        Ok(before)
    }

    // Whether two records judge a vertex alike.
    fn are_alike(&self, old: Option<Record>, new: Option<Record>) -> bool
        ensures { IfSome old (IsRecordOf self.now.types self.now.contexts) → IfSome new (IsRecordOf self.now.types self.now.contexts)
            → IsTrue result ↔ (option_map (judgement_by self.now) old ≡ option_map (judgement_by self.now) new) }
    {
        self.types.numbers_are_distinct();
        self.contexts.numbers_are_distinct();
        match (old, new) {
            (Some(old), Some(new)) => is_same_judgement(&old, &new),
            (None, None) => true,
            (Some(_), None) | (None, Some(_)) => false,
        }
    }

    // Whether a vertex is judged as it was, and is the root of a cycle as it was.
    fn is_unchanged(&self, before: &Before, vertex: &Vertex) -> bool
        ensures { (was : KeptMarks) → WereBefore was self.now before.now
            → IsTrue result ↔ IsJudgedAlike (records_in was) (records_in self.now) (holds was.roots) (holds self.now.roots) vertex.now }
    {
        let is_root = holds(&self.roots, vertex);
        let was_root = before.roots.get(vertex).unwrap_or(is_root);
        if was_root != is_root {
            return false;
        }
        let record = self.records.get(vertex);
        let had = before.records.get(vertex).unwrap_or(record);
        self.are_alike(had, record)
    }

    // Those of the vertices of some receipts that are judged otherwise than they were, in the order in which they stand there.
    fn changed_among(&self, before: &Before) -> Result<Vec<Vertex>, NoMemory>
        ensures { (was : KeptMarks) → WereBefore was self.now before.now
            → IfOk result (λ changed. (v : Vertex) → (stands_in v changed.items ≡ true)
            ↔ ((stands_in v before.now.vertices.items ≡ true) × (IsJudgedAlike (records_in was) (records_in self.now) (holds was.roots) (holds self.now.roots) v → ⊥))) }
    {
        let mut changed = Vec::new(self.alloc);
        for vertex in &before.vertices {
            if !self.is_unchanged(before, vertex) {
                changed.push(*vertex)?;
            }
        }
        Ok(changed)
    }

    /// The vertices that are judged otherwise than before some edits, in vertex order, where these are the receipts of the edits.
    pub(crate) fn changed_since(&self, receipts: &[Receipt<'_>]) -> Result<Vec<Vertex>, NoMemory>
        ensures { (was : Held) (entries : Entries) → HaveLed (reverse receipts.now) was (held entries self.now) → AreRecordsOf was.marks.types was.marks.contexts was.marks.records
            → IfOk result (λ changed. AreJudgedOtherwise (records_in was.marks) (records_in self.now) (holds was.marks.roots) (holds self.now.roots) changed.items) }
    {
        let before = self.before_all(receipts)?;
        let mut changed = self.changed_among(&before)?;
        sort_vertices(&mut changed);
        Ok(changed)
    }
}
