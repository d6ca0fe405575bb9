ghost use Rattle.std.specs.Prelude.{◌≡◌, ◌+◌, ◌<◌, ◌≤◌, List, drop, length, IfOk, OnOk, if◌then◌else◌};
ghost use Rattle.grove_sorts.specs.Ctor.{positions};
ghost use Rattle.live_graph.specs.Live.{live};
ghost use Rattle.type_core.specs.Typ.{Typ};
ghost use Rattle.type_core.specs.TypeTable.{KeepsTypes};
ghost use Rattle.ctx_table.specs.Context.{Context};
ghost use Rattle.ctx_table.specs.CtxTable.{KeepsContexts};
ghost use Rattle.mark_step.specs.Node.{demanded_at, IsDemandOf};
ghost use Rattle.marking.specs.Marking.{synthesised_in};
ghost use Rattle.judging.specs.Machine as machine;
ghost use Rattle.judging.specs.Frames.{given_at, opened_at, left_of, filled_with, IsOpenOf, IsGivenOf};
ghost use Rattle.mark_incremental.specs.Walking.{IsFrameOf, IsAccepted, IsBegun};
ghost use Rattle.mark_incremental.specs.Ticks.{begun_cost, places_cost, after_next, IsMoved};

use crate::looking::Walk;
use ctx_table::CtxTable;
use graph_words::Steps;
use grove_edits::Vertex;
use grove_sorts::place_at;
use judging::{Given, OpenVertex, demand_at, fill, fresh, nothing};
use live_graph::Edges;
use mark_step::{Demand, Mode};
use std::alloc::Global;
use std::sync::ledger::Ledger;
use text_parts::NoMemory;
use type_core::TypeTable;

/// A vertex of which some positions are judged, at the position that comes next.
#[derive(Drop)]
pub(crate) struct Frame<'t> {
    pub(crate) vertex: &'t Vertex,
    pub(crate) state: OpenVertex<'t>,
    /// The edges at the position whose targets are not judged yet.
    pub(crate) left: Edges<'t>,
    /// Whether several edges lead from the position.
    pub(crate) several: bool,
    /// What is demanded of each child at the position.
    pub(crate) demand: Demand,
    /// What the position gives, as far as its children are judged.
    pub(crate) given: Given<'t>,
}

// What a position gives of whose children one gives this: a conflict gives nothing.
fn given_of_one<'t>(types: &TypeTable, several: bool, given: Given<'t>) -> Given<'t>
    requires { IsGivenOf types.now given }
    ensures given { given_at types.now result ≡ (if several then machine.nothing else given_at types.now given.entry) }
    ensures number { IsGivenOf types.now result }
{
    if several { nothing(types) } else { given }
}

/// Takes the first edge that is left, whose target gives this. A conflict gives nothing.
pub(crate) fn accept<'t>(types: &TypeTable, frame: &mut Frame<'t>, given: Given<'t>)
    requires given { IsGivenOf types.now given }
    ensures moved { IsMoved frame.old frame.new }
    ensures accepted { 0 < length frame.old.left → IsAccepted types.now frame.old given.entry frame.new }
    ensures numbers { (ctxs : List Context) → IsFrameOf types.now ctxs frame.old → IsFrameOf types.now ctxs frame.new }
{
    if let Some((_, rest)) = frame.left.split_first() {
        frame.left = rest;
        frame.given = given_of_one(types, frame.several, given);
    }
}

// What is demanded of each of several children of which this is demanded: that they synthesise.
fn among(demand: Demand, several: bool) -> Demand
    ensures demand { (types : List Typ) (ctxs : List Context) → demanded_at types ctxs result
        ≡ (if several then synthesised_in (demanded_at types ctxs demand) else demanded_at types ctxs demand) }
    ensures numbers { (types : List Typ) (ctxs : List Context) → IsDemandOf types ctxs demand → IsDemandOf types ctxs result }
{
    if several {
        Demand {
            ctx: demand.ctx,
            mode: Mode::Syn,
        }
    } else {
        demand
    }
}

impl<'t> Walk<'t> {
    // A vertex at its next position, if there is one.
    fn at_next<L: Ledger>(
        &self,
        alloc: Global,
        types: &mut TypeTable,
        ctxs: &mut CtxTable,
        vertex: &'t Vertex,
        state: OpenVertex<'t>,
        steps: &mut Steps<L>,
    ) -> Result<Frame<'t>, NoMemory>
        requires state { IsOpenOf types.old ctxs.old state }
        requires ctor { state.ctor.now ≡ vertex.now.ctor }
        ensures vertex { IfOk result (λ fr. fr.vertex.now ≡ vertex.now) }
        ensures state { IfOk result (λ fr. fr.state ≡ state.entry) }
        ensures begun { IfOk result (IsBegun (live self.now.graph.now) types.old types.new ctxs.old ctxs.new) }
        ensures numbers { IfOk result (IsFrameOf types.new ctxs.new) }
        ensures ticks { IfOk result (λ fr. steps.new ≡ steps.old + begun_cost fr) }
        ensures at_most { steps.new ≤ steps.old + places_cost (live self.now.graph.now) vertex.now (drop state.entry.next (positions vertex.now.ctor)) }
        ensures types { KeepsTypes types.old types.new }
        ensures contexts { KeepsContexts ctxs.old ctxs.new }
    {
        let Some((position, _)) = place_at(&vertex.ctor, state.next) else {
            return Ok(Frame {
                vertex,
                state,
                left: self.graph.no_edges(),
                several: false,
                demand: state.demand,
                given: nothing(types),
            });
        };
        let left = self.graph.children(vertex, position, steps);
        let demand = demand_at(alloc, types, ctxs, &state)?;
        let several = left.len() > 1;
        Ok(Frame {
            vertex,
            state,
            left,
            several,
            demand: among(demand, several),
            given: nothing(types),
        })
    }

    /// A vertex of which this is demanded, none of whose children is judged.
    pub(crate) fn begin<L: Ledger>(
        &self,
        alloc: Global,
        types: &mut TypeTable,
        ctxs: &mut CtxTable,
        vertex: &'t Vertex,
        demand: Demand,
        steps: &mut Steps<L>,
    ) -> Result<Frame<'t>, NoMemory>
        requires demand { IsDemandOf types.old ctxs.old demand }
        ensures vertex { IfOk result (λ fr. fr.vertex.now ≡ vertex.now) }
        ensures fresh { IfOk result (λ fr. opened_at types.old ctxs.old fr.state ≡ machine.fresh vertex.now.ctor (demanded_at types.old ctxs.old demand)) }
        ensures all_left { IfOk result (λ fr. left_of fr.state ≡ positions vertex.now.ctor) }
        ensures was { IfOk result (λ fr. IsOpenOf types.old ctxs.old fr.state) }
        ensures begun { IfOk result (IsBegun (live self.now.graph.now) types.old types.new ctxs.old ctxs.new) }
        ensures numbers { IfOk result (IsFrameOf types.new ctxs.new) }
        ensures ticks { IfOk result (λ fr. steps.new ≡ steps.old + begun_cost fr) }
        ensures at_most { steps.new ≤ steps.old + places_cost (live self.now.graph.now) vertex.now (positions vertex.now.ctor) }
        ensures types { KeepsTypes types.old types.new }
        ensures contexts { KeepsContexts ctxs.old ctxs.new }
    {
        let state = fresh(types, &vertex.ctor, demand);
        self.at_next(alloc, types, ctxs, vertex, state, steps)
    }

    /// Brings a vertex all of whose children at a position are judged to the position that comes after it.
    pub(crate) fn go_on<L: Ledger>(
        &self,
        alloc: Global,
        types: &mut TypeTable,
        ctxs: &mut CtxTable,
        frame: &mut Frame<'t>,
        steps: &mut Steps<L>,
    ) -> Result<(), NoMemory>
        requires frame { IsFrameOf types.old ctxs.old frame.old }
        requires next { frame.old.state.next < length (positions frame.old.vertex.now.ctor) }
        ensures vertex { OnOk result (frame.new.vertex.now ≡ frame.old.vertex.now) }
        ensures filled { OnOk result (frame.new.state ≡ filled_with frame.old.given frame.old.state) }
        ensures was { OnOk result (IsOpenOf types.old ctxs.old frame.new.state) }
        ensures begun { OnOk result (IsBegun (live self.now.graph.now) types.old types.new ctxs.old ctxs.new frame.new) }
        ensures numbers { OnOk result (IsFrameOf types.new ctxs.new frame.new) }
        ensures ticks { OnOk result (steps.new ≡ steps.old + begun_cost frame.new) }
        ensures at_most { steps.new ≤ steps.old + places_cost (live self.now.graph.now) frame.old.vertex.now (after_next frame.old) }
        ensures types { KeepsTypes types.old types.new }
        ensures contexts { KeepsContexts ctxs.old ctxs.new }
    {
        let mut state = frame.state;
        fill(&mut state, frame.given);
        *frame = self.at_next(alloc, types, ctxs, frame.vertex, state, steps)?;
        Ok(())
    }
}
