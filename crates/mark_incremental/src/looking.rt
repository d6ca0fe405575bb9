ghost use Rattle.std.specs.Prelude.{◌≡◌, ◌+◌, ◌≤◌, ◌↔◌, IsTrue, true, IfSome};
ghost use Rattle.std.specs.List.{AllByRecursion};
ghost use Rattle.std.proofs.Props.{props};
ghost use Rattle.grove_edits.specs.Edge.{IsWellFormed};
ghost use Rattle.graph_words.specs.declared.class.Class.TheVariants.{Inner};
ghost use Rattle.graph_words.specs.Class.{class};
ghost use Rattle.live_graph.specs.Live.{live};
ghost use Rattle.mark_step.specs.Node.{IsDemandOf};
ghost use Rattle.judging.specs.Frames.{IsGivenOf};
ghost use Rattle.kept_records.specs.Local.{is_inner};
ghost use Rattle.mark_incremental.specs.Reading.{AreRecordsOf, demand_of};
ghost use Rattle.mark_incremental.specs.Looking.{on, AreRoots, IsFound};

use crate::given::given_by;
use crate::walks_up::holds;
use ctx_table::CtxTable;
use graph_words::Steps;
use grove_edits::Vertex;
use grove_sorts::{Sort, sort_of};
use judging::{Given, nothing};
use live_graph::{FewEdges, LiveGraph};
use mark_step::{Demand, Mode};
use mark_store::{MarkStore, Record, VertexMap, VertexSet};
use std::sync::ledger::Ledger;
use type_core::TypeTable;

/// What a walk down reads: the graph, the roots of its cycles, the records that were kept, and the vertices that are judged again
/// whatever is demanded of them.
#[derive(Drop)]
pub(crate) struct Walk<'t> {
    pub(crate) graph: &'t LiveGraph,
    pub(crate) roots: &'t VertexMap<bool>,
    pub(crate) records: &'t MarkStore,
    /// All vertices are judged again.
    pub(crate) whole: bool,
    /// These are, where not all are.
    pub(crate) passed: &'t VertexSet,
    ghost rooted: { AreRoots (live graph.now) roots.now },
    ghost well_formed: { AllByRecursion IsWellFormed (live graph.now) } by { Prim.hlevel props },
}

/// Whether what is demanded of a vertex is what its record says.
pub(crate) fn is_demanded(kept: &Record, demand: &Demand) -> bool
    ensures { IsTrue result ↔ (demand_of kept.now ≡ demand.now) }
{
    kept.ctx == demand.ctx && kept.mode.unwrap_or(Mode::Syn) == demand.mode
}

/// Whether a vertex stands in the tree of another one. It ticks at most three times.
pub(crate) fn is_inner<L: Ledger>(
    vertex: &Vertex,
    graph: &LiveGraph,
    roots: &VertexMap<bool>,
    steps: &mut Steps<L>,
) -> bool
    requires { AreRoots (live graph.now) roots.now }
    ensures inner { result ≡ is_inner (live graph.now) vertex.now }
    ensures ticks { steps.new ≤ steps.old + 3 }
{
    match graph.few_parents(vertex, steps) {
        FewEdges::Zero | FewEdges::More(_, _) => false,
        FewEdges::One(_) => !holds(roots, vertex),
    }
}

impl<'t> Walk<'t> {
    /// Whether a vertex is judged again whatever is demanded of it.
    pub(crate) fn is_judged(&self, vertex: &Vertex) -> bool
        ensures { result ≡ on self.now.whole self.now.passed.now vertex.now }
    {
        self.whole || self.passed.holds(vertex)
    }

    // What a tree gives, of whose vertex this is demanded, where it is left as it is.
    fn left(
        &self,
        types: &TypeTable,
        _ctxs: &CtxTable,
        demand: &Demand,
        vertex: &'t Vertex,
    ) -> Option<Given<'t>>
        requires records { AreRecordsOf types.now _ctxs.now self.now.records.now }
        requires demand { IsDemandOf types.now _ctxs.now demand.now }
        requires inner { class (live self.now.graph.now) vertex.now ≡ Inner }
        ensures found { IsFound (live self.now.graph.now) types.now _ctxs.now self.now.records.now (on self.now.whole self.now.passed.now) demand.now vertex.now result }
        ensures number { IfSome result (IsGivenOf types.now) }
    {
        if self.is_judged(vertex) {
            return None;
        }
        types.numbers_are_distinct();
        _ctxs.numbers_are_distinct();
        let record = self.records.get(vertex)?;
        if sort_of(&vertex.ctor) == Sort::Exp && !is_demanded(&record, demand) {
            return None;
        }
        Some(given_by(types, &vertex.ctor, &record))
    }

    /// What a child gives, of which this is demanded, if it does not have to be judged again. It ticks at
    /// most three times.
    pub(crate) fn look<L: Ledger>(
        &self,
        types: &TypeTable,
        ctxs: &CtxTable,
        demand: &Demand,
        vertex: &'t Vertex,
        steps: &mut Steps<L>,
    ) -> Option<Given<'t>>
        requires records { AreRecordsOf types.now ctxs.now self.now.records.now }
        requires demand { IsDemandOf types.now ctxs.now demand.now }
        ensures found { IsFound (live self.now.graph.now) types.now ctxs.now self.now.records.now (on self.now.whole self.now.passed.now) demand.now vertex.now result }
        ensures number { IfSome result (IsGivenOf types.now) }
        ensures ticks { steps.new ≤ steps.old + 3 }
    {
        if !is_inner(vertex, self.graph, self.roots, steps) {
            return Some(nothing(types));
        }
        self.left(types, ctxs, demand, vertex)
    }
}
