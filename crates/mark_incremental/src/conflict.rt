ghost use Rattle.std.specs.Prelude.{◌≡◌, ℕ, ◌+◌, ◌*◌, ◌≤◌, ◌∷◌, IsTrue, false, List, length, None, IfOk, IfSome, OnOk, OnErr};
ghost use Rattle.std.specs.List.{AllByRecursion};
ghost use Rattle.grove_edits.specs.declared.edge.Edge.{Edge};
ghost use Rattle.grove_edits.specs.declared.vertex.Vertex.{Vertex};
ghost use Rattle.grove_edits.specs.Edge.{IsWellFormed};
ghost use Rattle.grove_edits.specs.Graph.{graph as graph_of};
ghost use Rattle.grove_terms.specs.Forest.{edges_under};
ghost use Rattle.graph_words.specs.declared.class.Class.TheVariants.{Inner};
ghost use Rattle.graph_words.specs.Class.{class};
ghost use Rattle.graph_words.specs.Few.{first_two};
ghost use Rattle.graph_words.specs.Live.{holds_edge, parents_of, children_of};
ghost use Rattle.live_graph.specs.Live.{live};
ghost use Rattle.type_core.specs.TypeTable.{KeepsTypes};
ghost use Rattle.ctx_table.specs.CtxTable.{KeepsContexts};
ghost use Rattle.mark_step.specs.Expression.{Demanded};
ghost use Rattle.mark_step.specs.Node.{IsDemandOf};
ghost use Rattle.kept_records.specs.Kept.{AreKept};
ghost use Rattle.kept_records.specs.Change.{AreNear, near_size};
ghost use Rattle.mark_incremental.specs.Reading.{AreRecordsOf};
ghost use Rattle.mark_incremental.specs.Looking.{on, AreRoots};
ghost use Rattle.mark_incremental.specs.Walking.{Level, demands, IsFrameOf, IsStart, start_at, AreMadeOf};
ghost use Rattle.mark_incremental.specs.Ticks.{still_costs};
ghost use Rattle.mark_incremental.specs.Standing.{records_in};
ghost use Rattle.mark_incremental.specs.Applying.{KeepMarksRoom, HaveGrown, WasRenewed, CanRenewBack};
ghost use Rattle.mark_incremental.specs.ShortWalks.{IsDemandThere, IsSeenByOne};
ghost use Rattle.mark_incremental.specs.AtConflict.{IsLedFromPosition, MaySeeAlone, StoodSeveral, IsOpenedFor, IsPassedFor, level_at, IsDemandBelow, IsStartBelow, StandsAtEdge, HasMadeAtConflict, IsConflictPaidFor};

use crate::apart::are_alike;
use crate::applying::OldRecords;
use crate::frame::{Frame, accept};
use crate::looking::Walk;
use crate::marks::Marks;
use crate::short::{came_or_source, kept_demand};
use crate::way::judged_with;
use ctx_table::CtxTable;
use graph_words::{Few, Steps};
use grove_edits::{Edge, Vertex, is_same_vertex};
use grove_sorts::place_at;
use live_graph::{Edges, LiveGraph};
use mark_step::Demand;
use mark_store::{MarkStore, Record, VertexSet};
use std::alloc::Global;
use std::sync::ledger::Ledger;
use text_parts::NoMemory;
use type_core::TypeTable;

// Whether there is no parent edge from elsewhere than the position of an edge.
fn is_from_position(few: &Few, edge: &Edge) -> bool
    ensures { (edges : List Edge) → few.now ≡ first_two (parents_of edge.now.target edges) → IsTrue result → IsLedFromPosition edge.now edges }
{
    match few {
        Few::Zero => true,
        Few::One(parent) => {
            is_same_vertex(&parent.source, &edge.source) && parent.position == edge.position
        }
        Few::More(_, _) => false,
    }
}

/// Whether the position of an edge alone sees what an edit makes of its target, which had these parents before it and has those after it.
fn sees_alone(edge: &Edge, before: &Few, after: &Few) -> bool
    ensures { (old new : List Edge) → before.now ≡ first_two (parents_of edge.now.target old) → after.now ≡ first_two (parents_of edge.now.target new) → IsTrue result → MaySeeAlone edge.now old new }
{
    if are_alike(before, after) {
        return true;
    }
    is_from_position(before, edge) && is_from_position(after, edge)
}

// Whether an edge is not among several.
fn is_absent(edge: &Edge, children: Edges<'_>) -> bool
    ensures { IsTrue result → holds_edge edge.now children.entry ≡ false }
{
    let mut left = children;
    while let Some((child, others)) = left.split_first() {
        if child.edge() == *edge {
            return false;
        }
        left = others;
    }
    true
}

// Whether several children stand at the position of an edge, these, and stood there before an edit of the edge.
fn were_several(edge: &Edge, children: Edges<'_>) -> bool
    ensures { IsTrue result → StoodSeveral edge.now children.entry }
{
    if children.len() > 2 {
        return true;
    }
    children.len() == 2 && is_absent(edge, children)
}

/// What is demanded of the source of an edge, where its position has a conflict both before an edit of the edge and after it, and alone
/// sees what becomes of its target.
pub(crate) fn demand_at_conflict<L: Ledger>(
    records: &MarkStore,
    edge: &Edge,
    before: &Few,
    after: &Few,
    graph: &LiveGraph,
    steps: &mut Steps<L>,
) -> Option<Demand>
    ensures demand { IfSome result (IsDemandThere records.now edge.now.source) }
    ensures several { IfSome result (λ d. StoodSeveral edge.now (children_of edge.now.source edge.now.position (live graph.now))) }
    ensures sees { (old new : List Edge) → before.now ≡ first_two (parents_of edge.now.target old) → after.now ≡ first_two (parents_of edge.now.target new) → IfSome result (λ d. MaySeeAlone edge.now old new) }
    ensures ticks { steps.new ≤ steps.old + 1 + length (children_of edge.now.source edge.now.position (live graph.now)) }
{
    if !sees_alone(edge, before, after) {
        return None;
    }
    let there = graph.children(&edge.source, edge.position, steps);
    if !were_several(edge, there) {
        return None;
    }
    kept_demand(records, &edge.source)
}

impl<'t> Walk<'t> {
    // A vertex at a position of which no child is taken, with what the position gives. None where its only child has to be judged again.
    fn pass<L: Ledger>(
        &self,
        types: &TypeTable,
        ctxs: &CtxTable,
        frame: Frame<'t>,
        steps: &mut Steps<L>,
    ) -> Option<Frame<'t>>
        requires records { AreRecordsOf types.now ctxs.now self.now.records.now }
        requires frame { IsFrameOf types.now ctxs.now frame }
        ensures passed { (l : Level) → IsOpenedFor (live self.now.graph.now) types.now ctxs.now self.now.records.now (on self.now.whole self.now.passed.now) l frame.entry
            → IfSome result (IsPassedFor (live self.now.graph.now) types.now ctxs.now self.now.records.now (on self.now.whole self.now.passed.now) l) }
        ensures vertex { IfSome result (λ fr. fr.vertex.now ≡ frame.entry.vertex.now) }
        ensures state { IfSome result (λ fr. fr.state ≡ frame.entry.state) }
        ensures numbers { IfSome result (IsFrameOf types.now ctxs.now) }
        ensures costs { IfSome result (λ fr. steps.new + still_costs (live self.now.graph.now) fr fr.left ≤ steps.old + still_costs (live self.now.graph.now) frame.entry frame.entry.left) }
        ensures at_most { steps.new ≤ steps.old + 3 * length frame.entry.left }
    {
        let Some((edge, _)) = frame.left.split_first() else {
            return Some(frame);
        };
        if frame.several {
            return Some(frame);
        }
        let given = self.look(types, ctxs, &frame.demand, edge.target(), steps)?;
        let mut passed = frame;
        accept(types, &mut passed, given);
        Some(passed)
    }

    // What is demanded of each child at the position of an edge, of whose source this is demanded, as the records of the only children at
    // the positions before it say. None where one of those has to be judged again.
    fn demand_below<L: Ledger>(
        &self,
        alloc: Global,
        types: &mut TypeTable,
        ctxs: &mut CtxTable,
        edge: &'t Edge,
        demand: Demand,
        steps: &mut Steps<L>,
    ) -> Result<Option<Demand>, NoMemory>
        requires records { AreRecordsOf types.old ctxs.old self.now.records.now }
        requires demand { IsDemandOf types.old ctxs.old demand }
        ensures below { (d : Demanded) (place : IsStart (live self.now.graph.now) types.old ctxs.old demand (start_at edge.now.source d))
            → IfOk result (λ r. IfSome r (IsDemandBelow (live self.now.graph.now) types.new ctxs.new self.now.records.now (on self.now.whole self.now.passed.now) (level_at edge.now.source place.above place.forest d) edge.now.position)) }
        ensures number { IfOk result (λ r. IfSome r (IsDemandOf types.new ctxs.new)) }
        ensures ticks { steps.new ≤ steps.old + 5 + 4 * length (edges_under (live self.now.graph.now) edge.now.source) }
        ensures types { KeepsTypes types.old types.new }
        ensures contexts { KeepsContexts ctxs.old ctxs.new }
    {
        let mut frame = self.begin(alloc, types, ctxs, &edge.source, demand, steps)?;
        for _ in 0..u64::MAX {
            let Some((position, _)) = place_at(&edge.source.ctor, frame.state.next) else {
                return Ok(None);
            };
            if position == edge.position {
                return Ok(Some(frame.demand));
            }
            let Some(passed) = self.pass(types, ctxs, frame, steps) else {
                return Ok(None);
            };
            frame = passed;
            self.go_on(alloc, types, ctxs, &mut frame, steps)?;
        }
        Ok(None)
    }

    // The records that are made for the target of an edge, of which this is demanded where it stands at the position of the edge.
    fn renew_target<L: Ledger>(
        &self,
        alloc: Global,
        types: &mut TypeTable,
        ctxs: &mut CtxTable,
        edge: &'t Edge,
        demand: Demand,
        steps: &mut Steps<L>,
    ) -> Result<Vec<(Vertex, Record)>, NoMemory>
        requires records { AreRecordsOf types.old ctxs.old self.now.records.now }
        requires demand { IsDemandOf types.old ctxs.old demand }
        ensures target { (d : Demanded) → (class (live self.now.graph.now) edge.now.target ≡ Inner → IsStartBelow (live self.now.graph.now) types.old ctxs.old demand edge.now.source edge.now.target d)
            → IfOk result (λ made. HasMadeAtConflict edge.now (live self.now.graph.now) types.new ctxs.new self.now.records.now (on self.now.whole self.now.passed.now) d made.items) }
        ensures made { IfOk result (λ made. AreMadeOf types.new ctxs.new made.items) }
        ensures paid { (d : Demanded) → (class (live self.now.graph.now) edge.now.target ≡ Inner → IsStartBelow (live self.now.graph.now) types.old ctxs.old demand edge.now.source edge.now.target d)
            → IsConflictPaidFor edge.now (live self.now.graph.now) types.old ctxs.old self.now.records.now (on self.now.whole self.now.passed.now) d steps.old steps.new }
        ensures types { KeepsTypes types.old types.new }
        ensures contexts { KeepsContexts ctxs.old ctxs.new }
    {
        if self
            .look(types, ctxs, &demand, &edge.target, steps)
            .is_some()
        {
            return self.renew_alone(alloc, types, ctxs, &edge.target, &edge.source, steps);
        }
        let mut made = Vec::new(alloc);
        self.renew_from(alloc, types, ctxs, &edge.target, demand, &mut made, steps)?;
        Ok(made)
    }

    /// The records that are made for the target of an edge at a conflict, of whose source this is demanded. None where it is not known what
    /// is demanded at the position.
    pub(crate) fn renew_below_conflict<L: Ledger>(
        &self,
        alloc: Global,
        types: &mut TypeTable,
        ctxs: &mut CtxTable,
        edge: &'t Edge,
        demand: Demand,
        steps: &mut Steps<L>,
    ) -> Result<Option<Vec<(Vertex, Record)>>, NoMemory>
        requires records { AreRecordsOf types.old ctxs.old self.now.records.now }
        requires demand { IsDemandOf types.old ctxs.old demand }
        ensures target { (d : Demanded) (place : IsStart (live self.now.graph.now) types.old ctxs.old demand (start_at edge.now.source d))
            → (class (live self.now.graph.now) edge.now.target ≡ Inner → StandsAtEdge edge.now (level_at edge.now.source place.above place.forest d))
            → IfOk result (λ r. IfSome r (λ made. HasMadeAtConflict edge.now (live self.now.graph.now) types.new ctxs.new self.now.records.now (on self.now.whole self.now.passed.now)
            (demands (level_at edge.now.source place.above place.forest d) edge.now.position) made.items)) }
        ensures made { IfOk result (λ r. IfSome r (λ made. AreMadeOf types.new ctxs.new made.items)) }
        ensures paid { (d : Demanded) (place : IsStart (live self.now.graph.now) types.old ctxs.old demand (start_at edge.now.source d))
            → (class (live self.now.graph.now) edge.now.target ≡ Inner → StandsAtEdge edge.now (level_at edge.now.source place.above place.forest d))
            → (most : ℕ) → ((before after : ℕ) → IsConflictPaidFor edge.now (live self.now.graph.now) types.old ctxs.old self.now.records.now (on self.now.whole self.now.passed.now)
            (demands (level_at edge.now.source place.above place.forest d) edge.now.position) before after → after ≤ before + most)
            → steps.new ≤ steps.old + 5 + 4 * length (edges_under (live self.now.graph.now) edge.now.source) + most }
        ensures types { KeepsTypes types.old types.new }
        ensures contexts { KeepsContexts ctxs.old ctxs.new }
    {
        let Some(below) = self.demand_below(alloc, types, ctxs, edge, demand, steps)? else {
            return Ok(None);
        };
        let made = self.renew_target(alloc, types, ctxs, edge, below, steps)?;
        Ok(Some(made))
    }
}

impl Marks {
    // What a walk down from the target of an edge at a conflict makes, over the tables of these marks.
    fn make_below_conflict<L: Ledger>(
        &mut self,
        judged: &VertexSet,
        edge: &Edge,
        demand: Demand,
        graph: &LiveGraph,
        steps: &mut Steps<L>,
    ) -> Result<Option<Vec<(Vertex, Record)>>, NoMemory>
        requires rooted { AreRoots (live graph.now) self.old.roots }
        requires well_formed { AllByRecursion IsWellFormed (live graph.now) }
        requires demand { IsDemandOf self.old.types self.old.contexts demand }
        ensures target { (d : Demanded) (place : IsStart (live graph.now) self.old.types self.old.contexts demand (start_at edge.now.source d))
            → (class (live graph.now) edge.now.target ≡ Inner → StandsAtEdge edge.now (level_at edge.now.source place.above place.forest d))
            → IfOk result (λ r. IfSome r (λ made. HasMadeAtConflict edge.now (live graph.now) self.new.types self.new.contexts self.old.records (on false judged.now)
            (demands (level_at edge.now.source place.above place.forest d) edge.now.position) made.items)) }
        ensures numbers { IfOk result (λ r. IfSome r (λ made. AreMadeOf self.new.types self.new.contexts made.items)) }
        ensures paid { (d : Demanded) (place : IsStart (live graph.now) self.old.types self.old.contexts demand (start_at edge.now.source d))
            → (class (live graph.now) edge.now.target ≡ Inner → StandsAtEdge edge.now (level_at edge.now.source place.above place.forest d))
            → (most : ℕ) → ((before after : ℕ) → IsConflictPaidFor edge.now (live graph.now) self.old.types self.old.contexts self.old.records (on false judged.now)
            (demands (level_at edge.now.source place.above place.forest d) edge.now.position) before after → after ≤ before + most)
            → steps.new ≤ steps.old + 5 + 4 * length (edges_under (live graph.now) edge.now.source) + most }
        ensures types { KeepsTypes self.old.types self.new.types }
        ensures contexts { KeepsContexts self.old.contexts self.new.contexts }
        ensures records { self.new.records ≡ self.old.records }
        ensures roots { self.new.roots ≡ self.old.roots }
    {
        let walk = Walk {
            graph,
            roots: &self.roots,
            records: &self.records,
            whole: false,
            passed: judged,
        };
        walk.renew_below_conflict(
            self.alloc,
            &mut self.types,
            &mut self.contexts,
            edge,
            demand,
            steps,
        )
    }

    /// Renews the records after an edit of an edge at whose position a conflict stands both before it and after it, and of whose source
    /// this is demanded, by a walk down from its target. None where it is not known what is demanded at the position; then the records
    /// and the roots of cycles stay, and the tables may have grown.
    pub(crate) fn renew_at_conflict<L: Ledger>(
        &mut self,
        edge: &Edge,
        demand: Demand,
        graph: &LiveGraph,
        steps: &mut Steps<L>,
    ) -> Result<Option<OldRecords>, NoMemory>
        requires rooted { AreRoots (live graph.now) self.old.roots }
        requires well_formed { AllByRecursion IsWellFormed (live graph.now) }
        requires demand { IsDemandThere self.old.records edge.now.source demand }
        requires several { StoodSeveral edge.now (children_of edge.now.source edge.now.position (live graph.now)) }
        ensures renewed { (seen : IsSeenByOne edge.now (live graph.now) self.old) → MaySeeAlone edge.now seen.old (live graph.now)
            → IfOk result (λ r. IfSome r (λ old. AreKept (graph_of (seen.edit ∷ seen.edits)) (live graph.now) (records_in self.new))) }
        ensures ticks { (seen : IsSeenByOne edge.now (live graph.now) self.old) → MaySeeAlone edge.now seen.old (live graph.now)
            → (near : List Vertex) → AreNear edge.now seen.old (live graph.now) near → steps.new ≤ steps.old + 9 * near_size seen.old (live graph.now) near + 11 }
        ensures old { IfOk result (λ r. IfSome r (λ old. WasRenewed old self.old self.new)) }
        ensures can_put_back { IfOk result (λ r. IfSome r (λ old. CanRenewBack old self.new)) }
        ensures numbers { OnOk result (AreRecordsOf self.new.types self.new.contexts self.new.records) }
        ensures roots { self.new.roots ≡ self.old.roots }
        ensures nothing { IfOk result (λ r. r ≡ None → HaveGrown self.old self.new) }
        ensures grown { OnErr result (HaveGrown self.old self.new) }
        ensures room_stays { KeepMarksRoom self.old self.new }
    {
        let further = came_or_source(&self.records, edge);
        let judged = judged_with(self.alloc, self.seed, &edge.source, &[], &further)?;
        let Some(made) = self.make_below_conflict(&judged, edge, demand, graph, steps)? else {
            return Ok(None);
        };
        let records = self.replace(made)?;
        Ok(Some(OldRecords {
            records,
            root: None,
        }))
    }
}
