ghost use Rattle.std.specs.Prelude.{◌≡◌, ℕ, ◌+◌, ◌*◌, ◌≤◌, ◌∷◌, ◌<◌, [], List, Some, None, length, reverse, slice_get, IfOk, OnOk};
ghost use Rattle.grove_sorts.specs.Ctor.{positions};
ghost use Rattle.grove_edits.specs.declared.vertex.Vertex.{Vertex};
ghost use Rattle.grove_edits.specs.declared.edge.Edge.{Edge};
ghost use Rattle.graph_words.specs.declared.class.Class.TheVariants.{Inner};
ghost use Rattle.graph_words.specs.Class.{class};
ghost use Rattle.live_graph.specs.Live.{live};
ghost use Rattle.type_core.specs.TypeTable.{KeepsTypes};
ghost use Rattle.ctx_table.specs.Context.{Context};
ghost use Rattle.ctx_table.specs.CtxTable.{KeepsContexts};
ghost use Rattle.mark_step.specs.Expression.{Demanded};
ghost use Rattle.mark_step.specs.Node.{IsDemandOf};
ghost use Rattle.judging.specs.Frames.{IsGivenOf};
ghost use Rattle.kept_records.specs.Kept.{Kept};
ghost use Rattle.mark_store.specs.declared.record.Record.{Record};
ghost use Rattle.mark_incremental.specs.Reading.{AreRecordsOf};
ghost use Rattle.mark_incremental.specs.Looking.{on, IsFound};
ghost use Rattle.mark_incremental.specs.Walking.{AreFramesOf, AreMadeOf, IsFrameOf, IsHanded, IsAccepted, Start, start_at, IsStart, still_open, IsUnderWay, HasMadeFrom, HasMadeTree};
ghost use Rattle.mark_incremental.specs.Ticks.{weight_of, AreCounted, AreMoved, IsPaidFor, IsWalkPaidFor, IsTreePaidFor};

use crate::frame::{Frame, accept};
use crate::looking::Walk;
use crate::settling::settle;
use ctx_table::CtxTable;
use graph_words::Steps;
use grove_edits::Vertex;
use grove_sorts::position_count;
use judging::{Given, demand_next};
use live_graph::LiveEdge;
use mark_step::Demand;
use mark_store::Record;
use std::alloc::Global;
use std::mem;
use std::sync::ledger::Ledger;
use text_parts::NoMemory;
use type_core::TypeTable;

// Takes the innermost vertex away, which gives this to the one around it, if there is one. Whether there was none.
fn hand_on<'t>(
    types: &TypeTable,
    innermost: &mut Frame<'t>,
    outer: &mut Vec<Frame<'t>>,
    given: Given<'t>,
) -> bool
    requires { IsGivenOf types.now given }
    ensures handed { IsHanded types.now given.entry (reverse outer.old.items) (still_open result innermost.new outer.new.items) }
    ensures moved { (live : List Edge) → AreMoved live (reverse outer.old.items) (still_open result innermost.new outer.new.items) }
    ensures numbers { (ctxs : List Context) → AreFramesOf types.now ctxs (reverse outer.old.items) → AreFramesOf types.now ctxs (still_open result innermost.new outer.new.items) }
{
    let Some(around) = outer.pop() else {
        return true;
    };
    *innermost = around;
    accept(types, innermost, given);
    false
}

impl<'t> Walk<'t> {
    // Opens the child at the end of an edge of the innermost vertex.
    fn descend<L: Ledger>(
        &self,
        alloc: Global,
        types: &mut TypeTable,
        ctxs: &mut CtxTable,
        innermost: &mut Frame<'t>,
        outer: &mut Vec<Frame<'t>>,
        edge: &LiveEdge<'t>,
        steps: &mut Steps<L>,
    ) -> Result<(), NoMemory>
        requires records { AreRecordsOf types.old ctxs.old self.now.records.now }
        requires frames { AreFramesOf types.old ctxs.old (innermost.old ∷ reverse outer.old.items) }
        requires first { slice_get innermost.old.left 0 ≡ Some edge.now }
        requires found { IsFound (live self.now.graph.now) types.old ctxs.old self.now.records.now (on self.now.whole self.now.passed.now) innermost.old.demand edge.now.target None }
        ensures way { (from : Start) (before : List (Vertex × Kept)) (made : List (Vertex × Record)) → AreMadeOf types.old ctxs.old made
            → IsUnderWay (live self.now.graph.now) types.old ctxs.old self.now.records.now (on self.now.whole self.now.passed.now) from before (innermost.old ∷ reverse outer.old.items) made
            → OnOk result (IsUnderWay (live self.now.graph.now) types.new ctxs.new self.now.records.now (on self.now.whole self.now.passed.now) from before (innermost.new ∷ reverse outer.new.items) made) }
        ensures frames { OnOk result (AreFramesOf types.new ctxs.new (innermost.new ∷ reverse outer.new.items)) }
        ensures counted { (start paid count : ℕ) (made : List (Vertex × Record)) → steps.old ≤ count + 3 → AreCounted (live self.now.graph.now) start paid count (innermost.old ∷ reverse outer.old.items) made
            → OnOk result (AreCounted (live self.now.graph.now) start paid steps.new (innermost.new ∷ reverse outer.new.items) made) }
        ensures paid { (from : Start) (before : List (Vertex × Kept)) (made : List (Vertex × Record)) (start paid count : ℕ) → steps.old ≤ count + 3
            → IsUnderWay (live self.now.graph.now) types.old ctxs.old self.now.records.now (on self.now.whole self.now.passed.now) from before (innermost.old ∷ reverse outer.old.items) made
            → AreCounted (live self.now.graph.now) start paid count (innermost.old ∷ reverse outer.old.items) made
            → IsPaidFor (live self.now.graph.now) types.old ctxs.old self.now.records.now (on self.now.whole self.now.passed.now) from before start paid steps.new }
        ensures types { KeepsTypes types.old types.new }
        ensures contexts { KeepsContexts ctxs.old ctxs.new }
    {
        let demand = innermost.demand;
        let child = self.begin(alloc, types, ctxs, edge.target(), demand, steps)?;
        outer.push(mem::replace(innermost, child))?;
        Ok(())
    }

    // Takes the first child that is left of the innermost vertex.
    fn take<L: Ledger>(
        &self,
        alloc: Global,
        types: &mut TypeTable,
        ctxs: &mut CtxTable,
        innermost: &mut Frame<'t>,
        outer: &mut Vec<Frame<'t>>,
        edge: &LiveEdge<'t>,
        steps: &mut Steps<L>,
    ) -> Result<(), NoMemory>
        requires records { AreRecordsOf types.old ctxs.old self.now.records.now }
        requires frames { AreFramesOf types.old ctxs.old (innermost.old ∷ reverse outer.old.items) }
        requires first { slice_get innermost.old.left 0 ≡ Some edge.now }
        ensures way { (from : Start) (before : List (Vertex × Kept)) (made : List (Vertex × Record)) → AreMadeOf types.old ctxs.old made
            → IsUnderWay (live self.now.graph.now) types.old ctxs.old self.now.records.now (on self.now.whole self.now.passed.now) from before (innermost.old ∷ reverse outer.old.items) made
            → OnOk result (IsUnderWay (live self.now.graph.now) types.new ctxs.new self.now.records.now (on self.now.whole self.now.passed.now) from before (innermost.new ∷ reverse outer.new.items) made) }
        ensures frames { OnOk result (AreFramesOf types.new ctxs.new (innermost.new ∷ reverse outer.new.items)) }
        ensures counted { (start paid : ℕ) (made : List (Vertex × Record)) → AreCounted (live self.now.graph.now) start paid steps.old (innermost.old ∷ reverse outer.old.items) made
            → OnOk result (AreCounted (live self.now.graph.now) start paid steps.new (innermost.new ∷ reverse outer.new.items) made) }
        ensures paid { (from : Start) (before : List (Vertex × Kept)) (made : List (Vertex × Record)) (start paid : ℕ)
            → IsUnderWay (live self.now.graph.now) types.old ctxs.old self.now.records.now (on self.now.whole self.now.passed.now) from before (innermost.old ∷ reverse outer.old.items) made
            → AreCounted (live self.now.graph.now) start paid steps.old (innermost.old ∷ reverse outer.old.items) made
            → IsPaidFor (live self.now.graph.now) types.old ctxs.old self.now.records.now (on self.now.whole self.now.passed.now) from before start paid steps.new }
        ensures types { KeepsTypes types.old types.new }
        ensures contexts { KeepsContexts ctxs.old ctxs.new }
    {
        match self.look(types, ctxs, &innermost.demand, edge.target(), steps) {
            Some(given) => {
                accept(types, innermost, given);
                Ok(())
            }
            None => self.descend(alloc, types, ctxs, innermost, outer, edge, steps),
        }
    }

    // Takes the innermost vertex one step further: a child is taken, the next position is begun, or its record is made. Whether no vertex
    // is open any more.
    fn step<L: Ledger>(
        &self,
        alloc: Global,
        types: &mut TypeTable,
        ctxs: &mut CtxTable,
        innermost: &mut Frame<'t>,
        outer: &mut Vec<Frame<'t>>,
        made: &mut Vec<(Vertex, Record)>,
        steps: &mut Steps<L>,
    ) -> Result<bool, NoMemory>
        requires records { AreRecordsOf types.old ctxs.old self.now.records.now }
        requires frames { AreFramesOf types.old ctxs.old (innermost.old ∷ reverse outer.old.items) }
        requires made { AreMadeOf types.old ctxs.old made.old.items }
        ensures way { (from : Start) (before : List (Vertex × Kept))
            → IsUnderWay (live self.now.graph.now) types.old ctxs.old self.now.records.now (on self.now.whole self.now.passed.now) from before (innermost.old ∷ reverse outer.old.items) made.old.items
            → IfOk result (λ ended. IsUnderWay (live self.now.graph.now) types.new ctxs.new self.now.records.now (on self.now.whole self.now.passed.now) from before (still_open ended innermost.new outer.new.items) made.new.items) }
        ensures made { OnOk result (AreMadeOf types.new ctxs.new made.new.items) }
        ensures frames { IfOk result (λ ended. AreFramesOf types.new ctxs.new (still_open ended innermost.new outer.new.items)) }
        ensures counted { (start paid : ℕ) → AreCounted (live self.now.graph.now) start paid steps.old (innermost.old ∷ reverse outer.old.items) made.old.items
            → IfOk result (λ ended. AreCounted (live self.now.graph.now) start paid steps.new (still_open ended innermost.new outer.new.items) made.new.items) }
        ensures paid { (from : Start) (before : List (Vertex × Kept)) (start paid : ℕ)
            → IsUnderWay (live self.now.graph.now) types.old ctxs.old self.now.records.now (on self.now.whole self.now.passed.now) from before (innermost.old ∷ reverse outer.old.items) made.old.items
            → AreCounted (live self.now.graph.now) start paid steps.old (innermost.old ∷ reverse outer.old.items) made.old.items
            → IsPaidFor (live self.now.graph.now) types.old ctxs.old self.now.records.now (on self.now.whole self.now.passed.now) from before start paid steps.new }
        ensures types { KeepsTypes types.old types.new }
        ensures contexts { KeepsContexts ctxs.old ctxs.new }
    {
        if let Some((edge, _)) = innermost.left.split_first() {
            self.take(alloc, types, ctxs, innermost, outer, &edge, steps)?;
            return Ok(false);
        }
        if innermost.state.next < position_count(innermost.state.ctor) {
            self.go_on(alloc, types, ctxs, innermost, steps)?;
            return Ok(false);
        }
        let given = settle(alloc, types, ctxs, innermost, made)?;
        Ok(hand_on(types, innermost, outer, given))
    }

    /// Lists the records that a walk down from a vertex makes, of which this is demanded. It ticks at most five times for each of their
    /// vertices and for each edge under it; where memory runs out, for each that it would have made. The numbers of both tables keep
    /// their meaning then too.
    pub(crate) fn renew_from<L: Ledger>(
        &self,
        alloc: Global,
        types: &mut TypeTable,
        ctxs: &mut CtxTable,
        start: &'t Vertex,
        demand: Demand,
        made: &mut Vec<(Vertex, Record)>,
        steps: &mut Steps<L>,
    ) -> Result<(), NoMemory>
        requires records { AreRecordsOf types.old ctxs.old self.now.records.now }
        requires made { AreMadeOf types.old ctxs.old made.old.items }
        requires demand { IsDemandOf types.old ctxs.old demand }
        ensures from { (d : Demanded) → IsStart (live self.now.graph.now) types.old ctxs.old demand (start_at start.now d)
            → OnOk result (HasMadeFrom (live self.now.graph.now) types.new ctxs.new self.now.records.now (on self.now.whole self.now.passed.now) (start_at start.now d) made.old.items made.new.items) }
        ensures made { OnOk result (AreMadeOf types.new ctxs.new made.new.items) }
        ensures ticks { OnOk result (steps.new + 5 * weight_of (live self.now.graph.now) made.old.items ≤ steps.old + 5 * weight_of (live self.now.graph.now) made.new.items) }
        ensures paid { (d : Demanded) → IsStart (live self.now.graph.now) types.old ctxs.old demand (start_at start.now d)
            → IsWalkPaidFor (live self.now.graph.now) types.old ctxs.old self.now.records.now (on self.now.whole self.now.passed.now) (start_at start.now d) steps.old steps.new }
        ensures types { KeepsTypes types.old types.new }
        ensures contexts { KeepsContexts ctxs.old ctxs.new }
    {
        // The innermost open vertex stays in place; those around it wait, innermost last.
        let mut innermost = self.begin(alloc, types, ctxs, start, demand, steps)?;
        let mut outer = Vec::new(alloc);
        for _ in 0..u64::MAX {
            let ended = self.step(alloc, types, ctxs, &mut innermost, &mut outer, made, steps)?;
            if ended {
                return Ok(());
            }
        }
        // A tree is no larger than memory.
        Err(NoMemory)
    }

    /// Lists the records that a walk down the tree of a vertex makes, in the same number of ticks.
    pub(crate) fn renew_tree<L: Ledger>(
        &self,
        alloc: Global,
        types: &mut TypeTable,
        ctxs: &mut CtxTable,
        head: &'t Vertex,
        made: &mut Vec<(Vertex, Record)>,
        steps: &mut Steps<L>,
    ) -> Result<(), NoMemory>
        requires records { AreRecordsOf types.old ctxs.old self.now.records.now }
        requires made { AreMadeOf types.old ctxs.old made.old.items }
        requires heads { class (live self.now.graph.now) head.now ≡ Inner → ⊥ }
        ensures tree { OnOk result (HasMadeTree (live self.now.graph.now) types.new ctxs.new self.now.records.now (on self.now.whole self.now.passed.now) head.now made.old.items made.new.items) }
        ensures made { OnOk result (AreMadeOf types.new ctxs.new made.new.items) }
        ensures ticks { OnOk result (steps.new + 5 * weight_of (live self.now.graph.now) made.old.items ≤ steps.old + 5 * weight_of (live self.now.graph.now) made.new.items) }
        ensures paid { IsTreePaidFor (live self.now.graph.now) types.old ctxs.old self.now.records.now (on self.now.whole self.now.passed.now) head.now steps.old steps.new }
        ensures types { KeepsTypes types.old types.new }
        ensures contexts { KeepsContexts ctxs.old ctxs.new }
    {
        let demand = demand_next(alloc, types, ctxs, None)?;
        self.renew_from(alloc, types, ctxs, head, demand, made, steps)
    }
}
