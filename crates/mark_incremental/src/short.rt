ghost use Rattle.std.specs.Prelude.{◌≡◌, ◌+◌, ◌*◌, ◌≤◌, ◌∷◌, ◌++◌, [], ℕ, List, IsTrue, true, false, None, IfOk, IfSome, OnOk, OnErr};
ghost use Rattle.std.specs.List.{AllByRecursion};
ghost use Rattle.grove_edits.specs.declared.vertex.Vertex.{Vertex};
ghost use Rattle.grove_edits.specs.Edge.{IsWellFormed};
ghost use Rattle.grove_edits.specs.Graph.{graph as graph_of};
ghost use Rattle.graph_words.specs.declared.class.Class.TheVariants.{Inner};
ghost use Rattle.graph_words.specs.Class.{class};
ghost use Rattle.mark_store.specs.declared.record.Record.{Record};
ghost use Rattle.graph_words.specs.Whole.{AreLive};
ghost use Rattle.live_graph.specs.Live.{live};
ghost use Rattle.type_core.specs.Typ.{Typ};
ghost use Rattle.type_core.specs.TypeTable.{KeepsTypes};
ghost use Rattle.ctx_table.specs.CtxTable.{KeepsContexts};
ghost use Rattle.mark_step.specs.Expression.{Demanded};
ghost use Rattle.mark_step.specs.Node.{demanded_at, IsDemandOf};
ghost use Rattle.kept_records.specs.Kept.{Records, AreKept, alone};
ghost use Rattle.kept_records.specs.Change.{AreNear, near_size};
ghost use Rattle.kept_records.specs.Renewal.{IsLeft};
ghost use Rattle.kept_records.specs.Short.{LeadsUp};
ghost use Rattle.mark_incremental.specs.Reading.{AreRecordsOf};
ghost use Rattle.mark_incremental.specs.Looking.{on, AreRoots};
ghost use Rattle.mark_incremental.specs.Walking.{start_at, IsStart, AreMadeOf, ReadsAs};
ghost use Rattle.graph_words.specs.States.{state_in};
ghost use Rattle.kept_records.specs.Size.{IsSize};
ghost use Rattle.mark_incremental.specs.Standing.{StandFor, kept_in, records_in};
ghost use Rattle.mark_incremental.specs.Applying.{KeepMarksRoom, AreOld, HaveGrown, WasRenewed, CanRenewBack};
ghost use Rattle.mark_incremental.specs.ShortWalks.{IsDemandThere, EndsWithType, IsCameOrSource, IsSeenByOne, StoodBefore, HasMadeAlone, IsAlonePaidFor, HasMadeBoth, AreBothPaidFor};

use crate::apart::may_be_short;
use crate::applying::OldRecords;
use crate::conflict::demand_at_conflict;
use crate::looking::{Walk, is_demanded, is_inner};
use crate::marks::Marks;
use crate::way::{Way, judged_with, way_up};
use ctx_table::CtxTable;
use graph_words::{Few, ParentOf, Steps};
use grove_edits::{Edge, Vertex, is_same_vertex};
use grove_sorts::{Sort, sort_of};
use live_graph::LiveGraph;
use mark_step::{Demand, Mode};
use mark_store::{MarkStore, Record, VertexMap, VertexSet};
use std::alloc::Global;
use std::sync::ledger::Ledger;
use text_parts::NoMemory;
use type_core::TypeTable;

// So many vertices above the source of an edge a short walk may begin.
const MOST_ABOVE: u64 = 16;

/// What is demanded of an expression or the root by its record, if it has one.
pub(crate) fn kept_demand(records: &MarkStore, vertex: &Vertex) -> Option<Demand>
    ensures { IfSome result (IsDemandThere records.now vertex.now) }
{
    match sort_of(&vertex.ctor) {
        Sort::Exp | Sort::Top => {}
        Sort::Pat | Sort::Typ => return None,
    }
    let kept = records.get(vertex)?;
    Some(Demand {
        ctx: kept.ctx,
        mode: kept.mode.unwrap_or(Mode::Syn),
    })
}

// What is demanded of a vertex that is judged by itself.
fn demand_alone(ctxs: &CtxTable) -> Demand
    ensures demand { (types : List Typ) → demanded_at types ctxs.now result ≡ alone }
    ensures number { (types : List Typ) → IsDemandOf types ctxs.now result }
{
    Demand {
        ctx: ctxs.empty(),
        mode: Mode::Syn,
    }
}

fn last_made(made: &[(Vertex, Record)]) -> Option<(Vertex, Record)>
    ensures { IfSome result (λ last. (front : List (Vertex × Record)) × (made.now ≡ front ++ last ∷ [])) }
{
    made.last().copied()
}

/// Whether the last record that is made has the type that a vertex has by its old record.
pub(crate) fn type_stays(records: &MarkStore, vertex: &Vertex, made: &[(Vertex, Record)]) -> bool
    ensures { IsTrue result → EndsWithType records.now vertex.now made.now }
{
    let Some((_, new)) = last_made(made) else {
        return false;
    };
    let Some(old) = records.get(vertex) else {
        return false;
    };
    new.typ == old.typ
}

// Whether a walk down from a vertex may end with these records: what it made leaves the type of the vertex, or none is above it. It
// ticks at most three times.
fn may_end<L: Ledger>(
    records: &MarkStore,
    roots: &VertexMap<bool>,
    start: &Vertex,
    made: &[(Vertex, Record)],
    graph: &LiveGraph,
    steps: &mut Steps<L>,
) -> bool
    requires { AreRoots (live graph.now) roots.now }
    ensures ends { IsTrue result → class (live graph.now) start.now ≡ Inner → EndsWithType records.now start.now made.now }
    ensures ticks { steps.new ≤ steps.old + 3 }
{
    if !is_inner(start, graph, roots, steps) {
        return true;
    }
    type_stays(records, start, made)
}

impl<'t> Walk<'t> {
    // Whether a vertex that is judged by itself is left as it is.
    fn is_left(&self, types: &TypeTable, ctxs: &CtxTable, vertex: &Vertex) -> bool
        requires { AreRecordsOf types.now ctxs.now self.now.records.now }
        ensures left { IsTrue result → (records : Records) → ReadsAs types.now ctxs.now self.now.records.now records → IsLeft (on self.now.whole self.now.passed.now) records vertex.now alone }
        ensures judged { result ≡ false → (records : Records) → ReadsAs types.now ctxs.now self.now.records.now records → IsLeft (on self.now.whole self.now.passed.now) records vertex.now alone → ⊥ }
    {
        if self.is_judged(vertex) {
            return false;
        }
        let Some(kept) = self.records.get(vertex) else {
            return true;
        };
        types.numbers_are_distinct();
        ctxs.numbers_are_distinct();
        if sort_of(&vertex.ctor) == Sort::Exp {
            return is_demanded(&kept, &demand_alone(ctxs));
        }
        true
    }

    /// The records of the tree of a vertex, if it heads one, is not left as it is, and the other walk begins elsewhere.
    pub(crate) fn renew_alone<L: Ledger>(
        &self,
        alloc: Global,
        types: &mut TypeTable,
        ctxs: &mut CtxTable,
        target: &'t Vertex,
        start: &Vertex,
        steps: &mut Steps<L>,
    ) -> Result<Vec<(Vertex, Record)>, NoMemory>
        requires records { AreRecordsOf types.old ctxs.old self.now.records.now }
        ensures alone { IfOk result (λ made. HasMadeAlone (live self.now.graph.now) types.new ctxs.new self.now.records.now (on self.now.whole self.now.passed.now) target.now start.now made.items) }
        ensures made { IfOk result (λ made. AreMadeOf types.new ctxs.new made.items) }
        ensures paid { IsAlonePaidFor (live self.now.graph.now) types.old ctxs.old self.now.records.now (on self.now.whole self.now.passed.now) target.now start.now steps.old steps.new }
        ensures types { KeepsTypes types.old types.new }
        ensures contexts { KeepsContexts ctxs.old ctxs.new }
    {
        let mut made = Vec::new(alloc);
        if is_same_vertex(target, start) {
            return Ok(made);
        }
        if is_inner(target, self.graph, self.roots, steps) {
            return Ok(made);
        }
        if self.is_left(types, ctxs, target) {
            return Ok(made);
        }
        self.renew_tree(alloc, types, ctxs, target, &mut made, steps)?;
        Ok(made)
    }

    /// The records that two walks down make: one from a vertex of which this is demanded, and before it one down the tree of another
    /// vertex, if that heads one of its own.
    pub(crate) fn renew_both<L: Ledger>(
        &self,
        alloc: Global,
        types: &mut TypeTable,
        ctxs: &mut CtxTable,
        target: &'t Vertex,
        start: &'t Vertex,
        demand: Demand,
        steps: &mut Steps<L>,
    ) -> Result<Vec<(Vertex, Record)>, NoMemory>
        requires records { AreRecordsOf types.old ctxs.old self.now.records.now }
        requires demand { IsDemandOf types.old ctxs.old demand }
        ensures both { (d : Demanded) → IsStart (live self.now.graph.now) types.old ctxs.old demand (start_at start.now d)
            → IfOk result (λ made. HasMadeBoth (live self.now.graph.now) types.new ctxs.new self.now.records.now (on self.now.whole self.now.passed.now) target.now (start_at start.now d) made.items) }
        ensures made { IfOk result (λ made. AreMadeOf types.new ctxs.new made.items) }
        ensures paid { (d : Demanded) → IsStart (live self.now.graph.now) types.old ctxs.old demand (start_at start.now d)
            → AreBothPaidFor (live self.now.graph.now) types.old ctxs.old self.now.records.now (on self.now.whole self.now.passed.now) target.now (start_at start.now d) steps.old steps.new }
        ensures types { KeepsTypes types.old types.new }
        ensures contexts { KeepsContexts ctxs.old ctxs.new }
    {
        let mut made = self.renew_alone(alloc, types, ctxs, target, start, steps)?;
        self.renew_from(alloc, types, ctxs, start, demand, &mut made, steps)?;
        Ok(made)
    }
}

/// The target of an edge where it has no record, and else the source.
pub(crate) fn came_or_source(records: &MarkStore, edge: &Edge) -> Vertex
    ensures { IsCameOrSource records.now edge.now result }
{
    match records.get(&edge.target) {
        None => edge.target,
        Some(_) => edge.source,
    }
}

impl Marks {
    // What two walks down make, over the tables of these marks.
    fn make_both<L: Ledger>(
        &mut self,
        judged: &VertexSet,
        target: &Vertex,
        start: &Vertex,
        demand: Demand,
        graph: &LiveGraph,
        steps: &mut Steps<L>,
    ) -> Result<Vec<(Vertex, Record)>, NoMemory>
        requires rooted { AreRoots (live graph.now) self.old.roots }
        requires well_formed { AllByRecursion IsWellFormed (live graph.now) }
        requires demand { IsDemandOf self.old.types self.old.contexts demand }
        ensures both { (d : Demanded) → IsStart (live graph.now) self.old.types self.old.contexts demand (start_at start.now d)
            → IfOk result (λ made. HasMadeBoth (live graph.now) self.new.types self.new.contexts self.old.records (on false judged.now) target.now (start_at start.now d) made.items) }
        ensures numbers { IfOk result (λ made. AreMadeOf self.new.types self.new.contexts made.items) }
        ensures paid { (d : Demanded) → IsStart (live graph.now) self.old.types self.old.contexts demand (start_at start.now d)
            → AreBothPaidFor (live graph.now) self.old.types self.old.contexts self.old.records (on false judged.now) target.now (start_at start.now d) steps.old steps.new }
        ensures types { KeepsTypes self.old.types self.new.types }
        ensures contexts { KeepsContexts self.old.contexts self.new.contexts }
        ensures records { self.new.records ≡ self.old.records }
        ensures roots { self.new.roots ≡ self.old.roots }
    {
        let walk = Walk {
            graph,
            roots: &self.roots,
            records: &self.records,
            whole: false,
            passed: judged,
        };
        walk.renew_both(
            self.alloc,
            &mut self.types,
            &mut self.contexts,
            target,
            start,
            demand,
            steps,
        )
    }

    // Renews the records after an edit of an edge by a walk down from the top of a way up from its source, behind one from the target
    // where that heads a tree. None where the type at the top changes, which the vertex above sees; then all records stay.
    fn renew_below<L: Ledger>(
        &mut self,
        edge: &Edge,
        way: &Way,
        graph: &LiveGraph,
        steps: &mut Steps<L>,
    ) -> Result<Option<Vec<(Vertex, Option<Record>)>>, NoMemory>
        requires rooted { AreRoots (live graph.now) self.old.roots }
        requires well_formed { AllByRecursion IsWellFormed (live graph.now) }
        ensures renewed { (seen : IsSeenByOne edge.now (live graph.now) self.old) → LeadsUp (live graph.now) edge.now.source way.now.vertices.items way.now.top
            → IfOk result (λ r. IfSome r (λ old. AreKept (graph_of (seen.edit ∷ seen.edits)) (live graph.now) (records_in self.new))) }
        ensures ticks { (seen : IsSeenByOne edge.now (live graph.now) self.old) → LeadsUp (live graph.now) edge.now.source way.now.vertices.items way.now.top
            → (near : List Vertex) → AreNear edge.now seen.old (live graph.now) near → steps.new ≤ steps.old + 5 * near_size seen.old (live graph.now) near + 6 }
        ensures old { IfOk result (λ r. IfSome r (λ old. AreOld self.new.types self.new.contexts old.items self.old.records self.new.records)) }
        ensures numbers { OnOk result (AreRecordsOf self.new.types self.new.contexts self.new.records) }
        ensures nothing { IfOk result (λ r. r ≡ None → (v : Vertex) → kept_in self.new v ≡ kept_in self.old v) }
        ensures unchanged { OnErr result ((v : Vertex) → kept_in self.new v ≡ kept_in self.old v) }
        ensures types { KeepsTypes self.old.types self.new.types }
        ensures contexts { KeepsContexts self.old.contexts self.new.contexts }
        ensures roots { self.new.roots ≡ self.old.roots }
        ensures room_stays { KeepMarksRoom self.old self.new }
    {
        let Some(demand) = kept_demand(&self.records, &way.top) else {
            return Ok(None);
        };
        let further = came_or_source(&self.records, edge);
        let judged = judged_with(self.alloc, self.seed, &edge.source, &way.vertices, &further)?;
        let made = self.make_both(&judged, &edge.target, &way.top, demand, graph, steps)?;
        if !may_end(&self.records, &self.roots, &way.top, &made, graph, steps) {
            return Ok(None);
        }
        Ok(Some(self.replace(made)?))
    }

    // The same from the top of the way up from the source that has at most so many vertices.
    fn renew_within<L: Ledger>(
        &mut self,
        edge: &Edge,
        most: u64,
        graph: &LiveGraph,
        steps: &mut Steps<L>,
    ) -> Result<Option<Vec<(Vertex, Option<Record>)>>, NoMemory>
        requires rooted { AreRoots (live graph.now) self.old.roots }
        requires well_formed { AllByRecursion IsWellFormed (live graph.now) }
        ensures renewed { (seen : IsSeenByOne edge.now (live graph.now) self.old)
            → IfOk result (λ r. IfSome r (λ old. AreKept (graph_of (seen.edit ∷ seen.edits)) (live graph.now) (records_in self.new))) }
        ensures ticks { (seen : IsSeenByOne edge.now (live graph.now) self.old)
            → (near : List Vertex) → AreNear edge.now seen.old (live graph.now) near → steps.new ≤ steps.old + 8 * near_size seen.old (live graph.now) near + 9 }
        ensures old { IfOk result (λ r. IfSome r (λ old. AreOld self.new.types self.new.contexts old.items self.old.records self.new.records)) }
        ensures numbers { OnOk result (AreRecordsOf self.new.types self.new.contexts self.new.records) }
        ensures nothing { IfOk result (λ r. r ≡ None → (v : Vertex) → kept_in self.new v ≡ kept_in self.old v) }
        ensures unchanged { OnErr result ((v : Vertex) → kept_in self.new v ≡ kept_in self.old v) }
        ensures types { KeepsTypes self.old.types self.new.types }
        ensures contexts { KeepsContexts self.old.contexts self.new.contexts }
        ensures roots { self.new.roots ≡ self.old.roots }
        ensures room_stays { KeepMarksRoom self.old self.new }
    {
        let way = way_up(self.alloc, &edge.source, most, graph, &self.roots, steps)?;
        self.renew_below(edge, &way, graph, steps)
    }

    /// Renews the records after an edit of an edge by a walk down from its source, or from a vertex a few above it. None where the type
    /// changes there too; then the records and the roots of cycles stay, and the tables may have grown.
    pub(crate) fn renew_short<L: Ledger>(
        &mut self,
        edge: &Edge,
        graph: &LiveGraph,
        steps: &mut Steps<L>,
    ) -> Result<Option<OldRecords>, NoMemory>
        requires rooted { AreRoots (live graph.now) self.old.roots }
        requires well_formed { AllByRecursion IsWellFormed (live graph.now) }
        ensures renewed { (seen : IsSeenByOne edge.now (live graph.now) self.old)
            → IfOk result (λ r. IfSome r (λ old. AreKept (graph_of (seen.edit ∷ seen.edits)) (live graph.now) (records_in self.new))) }
        ensures ticks { (seen : IsSeenByOne edge.now (live graph.now) self.old)
            → (near : List Vertex) → AreNear edge.now seen.old (live graph.now) near → steps.new ≤ steps.old + 16 * near_size seen.old (live graph.now) near + 18 }
        ensures old { IfOk result (λ r. IfSome r (λ old. WasRenewed old self.old self.new)) }
        ensures can_put_back { IfOk result (λ r. IfSome r (λ old. CanRenewBack old self.new)) }
        ensures numbers { OnOk result (AreRecordsOf self.new.types self.new.contexts self.new.records) }
        ensures roots { self.new.roots ≡ self.old.roots }
        ensures nothing { IfOk result (λ r. r ≡ None → HaveGrown self.old self.new) }
        ensures grown { OnErr result (HaveGrown self.old self.new) }
        ensures room_stays { KeepMarksRoom self.old self.new }
    {
        if let Some(records) = self.renew_within(edge, 0, graph, steps)? {
            return Ok(Some(OldRecords {
                records,
                root: None,
            }));
        }
        if let Some(records) = self.renew_within(edge, MOST_ABOVE, graph, steps)? {
            return Ok(Some(OldRecords {
                records,
                root: None,
            }));
        }
        Ok(None)
    }

    /// The same, where the source of the edge alone sees what the edit makes of its target, which had these parents before.
    pub(crate) fn renew_if_short<L: Ledger>(
        &mut self,
        edge: &Edge,
        apart: bool,
        before: &Few,
        graph: &LiveGraph,
        steps: &mut Steps<L>,
    ) -> Result<Option<OldRecords>, NoMemory>
        requires live { AreLive (state_in graph.now) (live graph.now) }
        requires before { StoodBefore edge.now (state_in graph.now) self.old before.now apart }
        ensures stand { IfOk result (λ r. IfSome r (λ old. StandFor (state_in graph.now) self.new)) }
        ensures ticks { (was : StoodBefore edge.now (state_in graph.now) self.old before.now apart) → (size : ℕ) → IsSize edge.now (graph_of was.edits) (graph_of (was.edit ∷ was.edits)) size
            → steps.new ≤ steps.old + 17 * size + 22 }
        ensures old { IfOk result (λ r. IfSome r (λ old. WasRenewed old self.old self.new)) }
        ensures can_put_back { IfOk result (λ r. IfSome r (λ old. CanRenewBack old self.new)) }
        ensures nothing { IfOk result (λ r. r ≡ None → HaveGrown self.old self.new) }
        ensures grown { OnErr result (HaveGrown self.old self.new) }
        ensures room_stays { KeepMarksRoom self.old self.new }
    {
        let after = graph.few(&edge.target, steps);
        if !may_be_short(edge, apart, before, &after) {
            return Ok(None);
        }
        if let Some(demand) = demand_at_conflict(
            &self.records,
            edge,
            before,
            &after,
            graph,
            steps,
        ) {
            return self.renew_at_conflict(edge, demand, graph, steps);
        }
        self.renew_short(edge, graph, steps)
    }
}
