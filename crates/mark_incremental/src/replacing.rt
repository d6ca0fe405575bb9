ghost use Rattle.std.specs.Prelude.{◌≡◌, ◌+◌, ◌*◌, ◌≤◌, ◌∷◌, ℕ, List, length, not, filter, if◌then◌else◌, IfOk, OnOk, OnErr};
ghost use Rattle.std.specs.List.{AllByRecursion};
ghost use Rattle.grove_edits.specs.declared.vertex.Vertex.{Vertex};
ghost use Rattle.grove_edits.specs.declared.edge.Edge.{Edge};
ghost use Rattle.grove_edits.specs.declared.edit.Edit.{Edit};
ghost use Rattle.grove_edits.specs.Edge.{IsWellFormed};
ghost use Rattle.grove_edits.specs.Edit.{edit_edge};
ghost use Rattle.grove_edits.specs.Graph.{graph as graph_of};
ghost use Rattle.grove_edits.specs.Vertex.{is_same_vertex};
ghost use Rattle.graph_words.specs.Walk.{walk};
ghost use Rattle.graph_words.specs.Class.{is_cycle_root};
ghost use Rattle.graph_words.specs.Whole.{AreLive};
ghost use Rattle.live_graph.specs.Live.{live};
ghost use Rattle.graph_words.specs.States.{state_in};
ghost use Rattle.type_core.specs.TypeTable.{KeepsTypes};
ghost use Rattle.ctx_table.specs.CtxTable.{KeepsContexts};
ghost use Rattle.kept_records.specs.Kept.{AreKept};
ghost use Rattle.kept_records.specs.Local.{is_inner};
ghost use Rattle.kept_records.specs.Change.{CyclesStay, AreNear, near_size};
ghost use Rattle.kept_records.specs.Size.{IsSize};
ghost use Rattle.mark_incremental.specs.Reading.{AreRecordsOf};
ghost use Rattle.mark_incremental.specs.Rooting.{IsOnlyRoot};
ghost use Rattle.mark_store.specs.Places.{holds};
ghost use Rattle.mark_incremental.specs.Looking.{on, AreRoots};
ghost use Rattle.mark_incremental.specs.Walking.{AreMadeOf, HasMadeTrees};
ghost use Rattle.mark_incremental.specs.Ticks.{AreTreesPaidFor};
ghost use Rattle.mark_incremental.specs.Passing.{AreWalks};
ghost use Rattle.mark_incremental.specs.Standing.{StandFor, kept_in, records_in, put_in};
ghost use Rattle.mark_incremental.specs.Applying.{HaveGrown, KeepMarksRoom, AreOld, WasBefore, WasRenewed, CanRenewBack};

use crate::applying::OldRecords;
use crate::heads::heads_among;
use crate::looking::Walk;
use crate::marks::Marks;
use crate::passing::{Ends, passed_by, passed_with, walk_from_ends};
use crate::putting::{make_room, old_records, put};
use crate::rooting::{changed_root, set_root};
use crate::walks_up::WalkUp;
use graph_words::Steps;
use grove_edits::{Edge, Vertex};
use kept_records::whole_trees_renew_the_records;
use live_graph::LiveGraph;
use mark_store::{Record, VertexSet};
use std::sync::ledger::Ledger;
use text_parts::NoMemory;

impl Marks {
    // The records that walks down make of the trees of some vertices: of all that stands in them, or where vertices of a set stand. It
    // ticks at most three times for each vertex, besides what the walks down count.
    fn make<L: Ledger>(
        &mut self,
        whole: bool,
        vertices: &[Vertex],
        passed: &VertexSet,
        graph: &LiveGraph,
        steps: &mut Steps<L>,
    ) -> Result<Vec<(Vertex, Record)>, NoMemory>
        requires rooted { AreRoots (live graph.now) self.old.roots }
        requires well_formed { AllByRecursion IsWellFormed (live graph.now) }
        ensures trees { IfOk result (λ made. HasMadeTrees (live graph.now) self.new.types self.new.contexts self.old.records (on whole passed.now)
            (filter (λ v. not (is_inner (live graph.now) v)) vertices.now) made.items) }
        ensures numbers { IfOk result (λ made. AreMadeOf self.new.types self.new.contexts made.items) }
        ensures ticks { (most : ℕ) → ((before after : ℕ) → AreTreesPaidFor (live graph.now) self.old.types self.old.contexts self.old.records (on whole passed.now)
            (filter (λ v. not (is_inner (live graph.now) v)) vertices.now) before after → after ≤ before + most) → steps.new ≤ steps.old + 3 * length vertices.now + most }
        ensures types { KeepsTypes self.old.types self.new.types }
        ensures contexts { KeepsContexts self.old.contexts self.new.contexts }
        ensures records { self.new.records ≡ self.old.records }
        ensures roots { self.new.roots ≡ self.old.roots }
    {
        let heads = heads_among(self.alloc, vertices, graph, &self.roots, steps)?;
        let walk = Walk {
            graph,
            roots: &self.roots,
            records: &self.records,
            whole,
            passed,
        };
        walk.renew_trees(
            self.alloc,
            &mut self.types,
            &mut self.contexts,
            &heads,
            steps,
        )
    }

    /// Puts records in place of the kept ones, and answers those.
    pub(crate) fn replace(
        &mut self,
        made: Vec<(Vertex, Record)>,
    ) -> Result<Vec<(Vertex, Option<Record>)>, NoMemory>
        requires { AreMadeOf self.old.types self.old.contexts made.items }
        ensures replaced { OnOk result ((v : Vertex) → kept_in self.new v ≡ put_in made.items (kept_in self.old) v) }
        ensures old { IfOk result (λ old. AreOld self.old.types self.old.contexts old.items self.old.records self.new.records) }
        ensures numbers { OnOk result (AreRecordsOf self.new.types self.new.contexts self.new.records) }
        ensures unchanged { OnErr result ((v : Vertex) → kept_in self.new v ≡ kept_in self.old v) }
        ensures types { self.new.types ≡ self.old.types }
        ensures contexts { self.new.contexts ≡ self.old.contexts }
        ensures roots { self.new.roots ≡ self.old.roots }
        ensures room_stays { KeepMarksRoom self.old self.new }
    {
        let old = old_records(self.alloc, &self.records, &made)?;
        make_room(&mut self.records, &made)?;
        put(&mut self.records, made);
        Ok(old)
    }

    // Renews the records after an edit that leaves the roots of cycles as they were. It ticks at most eight times the size of the edit.
    fn renew_near<L: Ledger>(
        &mut self,
        before: &Ends,
        after: &Ends,
        graph: &LiveGraph,
        steps: &mut Steps<L>,
    ) -> Result<Vec<(Vertex, Option<Record>)>, NoMemory>
        requires rooted { AreRoots (live graph.now) self.old.roots }
        requires well_formed { AllByRecursion IsWellFormed (live graph.now) }
        ensures renewed { (edits : List Edit) (edit : Edit) (old : List Edge) → AreLive (graph_of edits) old → AreLive (graph_of (edit ∷ edits)) (live graph.now)
            → CyclesStay old (live graph.now) → AreKept (graph_of edits) old (records_in self.old)
            → AreWalks old (edit_edge edit) before.now → AreWalks (live graph.now) (edit_edge edit) after.now
            → OnOk result (AreKept (graph_of (edit ∷ edits)) (live graph.now) (records_in self.new)) }
        ensures ticks { (edits : List Edit) (edit : Edit) (old : List Edge) → AreLive (graph_of edits) old → AreLive (graph_of (edit ∷ edits)) (live graph.now)
            → CyclesStay old (live graph.now) → AreKept (graph_of edits) old (records_in self.old)
            → AreWalks old (edit_edge edit) before.now → AreWalks (live graph.now) (edit_edge edit) after.now
            → (near : List Vertex) → AreNear (edit_edge edit) old (live graph.now) near → steps.new ≤ steps.old + 8 * near_size old (live graph.now) near }
        ensures old { IfOk result (λ old. AreOld self.new.types self.new.contexts old.items self.old.records self.new.records) }
        ensures numbers { OnOk result (AreRecordsOf self.new.types self.new.contexts self.new.records) }
        ensures unchanged { OnErr result ((v : Vertex) → kept_in self.new v ≡ kept_in self.old v) }
        ensures types { KeepsTypes self.old.types self.new.types }
        ensures contexts { KeepsContexts self.old.contexts self.new.contexts }
        ensures roots { self.new.roots ≡ self.old.roots }
        ensures room_stays { KeepMarksRoom self.old self.new }
    {
        let passed = passed_by(self.alloc, self.seed, before, after)?;
        let made = self.make(false, &passed.vertices, &passed.set, graph, steps)?;
        self.replace(made)
    }

    // Renews the records after an edit of an edge to this target that makes or ends this root of a cycle: those of the trees of the root,
    // of the target and of the source, from which this is the walk up. The set of roots is that of the new graph already. It ticks at most
    // sixteen times the size of the edit, and a few times more.
    fn renew_whole<L: Ledger>(
        &mut self,
        target: &Vertex,
        root: &Vertex,
        source: &WalkUp,
        graph: &LiveGraph,
        steps: &mut Steps<L>,
    ) -> Result<Vec<(Vertex, Option<Record>)>, NoMemory>
        requires rooted { AreRoots (live graph.now) self.old.roots }
        requires well_formed { AllByRecursion IsWellFormed (live graph.now) }
        ensures renewed { (edits : List Edit) (edit : Edit) (old : List Edge) → AreLive (graph_of edits) old → AreLive (graph_of (edit ∷ edits)) (live graph.now)
            → (edit_edge edit).target ≡ target.now → source.now.vertices.items ≡ walk (live graph.now) (edit_edge edit).source
            → IsOnlyRoot old (live graph.now) root.now → AreKept (graph_of edits) old (records_in self.old)
            → OnOk result (AreKept (graph_of (edit ∷ edits)) (live graph.now) (records_in self.new)) }
        ensures ticks { (edits : List Edit) (edit : Edit) (old : List Edge) → AreLive (graph_of edits) old → AreLive (graph_of (edit ∷ edits)) (live graph.now)
            → (edit_edge edit).target ≡ target.now → source.now.vertices.items ≡ walk (live graph.now) (edit_edge edit).source
            → IsOnlyRoot old (live graph.now) root.now
            → (size : ℕ) → IsSize (edit_edge edit) (graph_of edits) (graph_of (edit ∷ edits)) size → steps.new ≤ steps.old + 16 * size + 9 }
        ensures old { IfOk result (λ old. AreOld self.new.types self.new.contexts old.items self.old.records self.new.records) }
        ensures numbers { OnOk result (AreRecordsOf self.new.types self.new.contexts self.new.records) }
        ensures unchanged { OnErr result ((v : Vertex) → kept_in self.new v ≡ kept_in self.old v) }
        ensures types { KeepsTypes self.old.types self.new.types }
        ensures contexts { KeepsContexts self.old.contexts self.new.contexts }
        ensures roots { self.new.roots ≡ self.old.roots }
        ensures room_stays { KeepMarksRoom self.old self.new }
    {
        let passed = passed_with(self.alloc, self.seed, source, target, root)?;
        whole_trees_renew_the_records();
        let made = self.make(true, &passed.vertices, &passed.set, graph, steps)?;
        self.replace(made)
    }

    // Renews the records after an edit of an edge to this target that makes or ends this root of a cycle.
    fn renew_with_root<L: Ledger>(
        &mut self,
        target: &Vertex,
        root: &Vertex,
        is_root: bool,
        source: &WalkUp,
        graph: &LiveGraph,
        steps: &mut Steps<L>,
    ) -> Result<OldRecords, NoMemory>
        requires rooted { (v : Vertex) → is_cycle_root (live graph.now) v ≡ (if is_same_vertex root.now v then is_root else holds self.old.roots v) }
        requires was { holds self.old.roots root.now ≡ not is_root }
        requires well_formed { AllByRecursion IsWellFormed (live graph.now) }
        ensures renewed { (edits : List Edit) (edit : Edit) (old : List Edge) → AreLive (graph_of edits) old → AreLive (graph_of (edit ∷ edits)) (live graph.now)
            → (edit_edge edit).target ≡ target.now → source.now.vertices.items ≡ walk (live graph.now) (edit_edge edit).source
            → IsOnlyRoot old (live graph.now) root.now → AreKept (graph_of edits) old (records_in self.old)
            → OnOk result (AreKept (graph_of (edit ∷ edits)) (live graph.now) (records_in self.new)) }
        ensures ticks { (edits : List Edit) (edit : Edit) (old : List Edge) → AreLive (graph_of edits) old → AreLive (graph_of (edit ∷ edits)) (live graph.now)
            → (edit_edge edit).target ≡ target.now → source.now.vertices.items ≡ walk (live graph.now) (edit_edge edit).source
            → IsOnlyRoot old (live graph.now) root.now
            → (size : ℕ) → IsSize (edit_edge edit) (graph_of edits) (graph_of (edit ∷ edits)) size → steps.new ≤ steps.old + 16 * size + 9 }
        ensures rooted { OnOk result (AreRoots (live graph.now) self.new.roots) }
        ensures old { IfOk result (λ old. WasRenewed old self.old self.new) }
        ensures can_put_back { IfOk result (λ old. CanRenewBack old self.new) }
        ensures numbers { OnOk result (AreRecordsOf self.new.types self.new.contexts self.new.records) }
        ensures grown { OnErr result (HaveGrown self.old self.new) }
        ensures room_stays { KeepMarksRoom self.old self.new }
    {
        self.roots.reserve_for(&[*root])?;
        set_root(&mut self.roots, root, is_root);
        match self.renew_whole(target, root, source, graph, steps) {
            Ok(records) => Ok(OldRecords {
                records,
                root: Some((*root, !is_root)),
            }),
            Err(no_memory) => {
                set_root(&mut self.roots, root, !is_root);
                Err(no_memory)
            }
        }
    }
}

impl Marks {
    /// Renews the records after an edit of an edge, from whose ends these walks led up before.
    pub(crate) fn renew<L: Ledger>(
        &mut self,
        edge: &Edge,
        before: &Ends,
        graph: &LiveGraph,
        steps: &mut Steps<L>,
    ) -> Result<OldRecords, NoMemory>
        requires live { AreLive (state_in graph.now) (live graph.now) }
        requires before { WasBefore edge.now (state_in graph.now) self.old before.now }
        ensures stand { OnOk result (StandFor (state_in graph.now) self.new) }
        ensures ticks { (was : WasBefore edge.now (state_in graph.now) self.old before.now) → (size : ℕ) → IsSize edge.now (graph_of was.edits) (graph_of (was.edit ∷ was.edits)) size
            → steps.new ≤ steps.old + 28 * size + 15 }
        ensures old { IfOk result (λ old. WasRenewed old self.old self.new) }
        ensures can_put_back { IfOk result (λ old. CanRenewBack old self.new) }
        ensures grown { OnErr result (HaveGrown self.old self.new) }
        ensures room_stays { KeepMarksRoom self.old self.new }
    {
        let after = walk_from_ends(self.alloc, self.seed, edge, graph, steps)?;
        if let Some(changed) = changed_root(&edge.target, before, &after) {
            let (root, is_root) = changed;
            return self.renew_with_root(&edge.target, &root, is_root, &after.source, graph, steps);
        }
        let records = self.renew_near(before, &after, graph, steps)?;
        Ok(OldRecords {
            records,
            root: None,
        })
    }
}
