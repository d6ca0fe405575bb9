ghost use Rattle.std.specs.Prelude.{◌≡◌, ◌+◌, ◌*◌, ◌≤◌, length, not, filter, IfOk};
ghost use Rattle.std.specs.List.{AllByRecursion};
ghost use Rattle.graph_words.specs.declared.class.Class.TheVariants.{Inner};
ghost use Rattle.graph_words.specs.Class.{class};
ghost use Rattle.live_graph.specs.Live.{live};
ghost use Rattle.type_core.specs.TypeTable.{KeepsTypes};
ghost use Rattle.ctx_table.specs.CtxTable.{KeepsContexts};
ghost use Rattle.kept_records.specs.Local.{is_inner};
ghost use Rattle.mark_incremental.specs.Reading.{AreRecordsOf};
ghost use Rattle.mark_incremental.specs.Looking.{on, AreRoots};
ghost use Rattle.mark_incremental.specs.Walking.{AreMadeOf, HasMadeTrees};
ghost use Rattle.mark_incremental.specs.Ticks.{weight_of, AreTreesPaidFor};

use crate::looking::{Walk, is_inner};
use ctx_table::CtxTable;
use graph_words::Steps;
use grove_edits::Vertex;
use live_graph::LiveGraph;
use mark_store::{Record, VertexMap};
use std::alloc::Global;
use std::sync::ledger::Ledger;
use text_parts::NoMemory;
use type_core::TypeTable;

/// Those of some vertices that head trees. It ticks at most three times for each.
pub(crate) fn heads_among<L: Ledger>(
    alloc: Global,
    vertices: &[Vertex],
    graph: &LiveGraph,
    roots: &VertexMap<bool>,
    steps: &mut Steps<L>,
) -> Result<Vec<Vertex>, NoMemory>
    requires { AreRoots (live graph.now) roots.now }
    ensures heads { IfOk result (λ heads. heads.items ≡ filter (λ v. not (is_inner (live graph.now) v)) vertices.now) }
    ensures ticks { steps.new ≤ steps.old + 3 * length vertices.now }
{
    let mut heads = Vec::new(alloc);
    for vertex in vertices {
        if !is_inner(vertex, graph, roots, steps) {
            heads.push(*vertex)?;
        }
    }
    Ok(heads)
}

impl<'t> Walk<'t> {
    /// The records that walks down the trees of some vertices make. It ticks at most five times for each of their vertices and for each
    /// edge under it; where memory runs out, for each that it would have made. The numbers of both tables keep their meaning then too.
    pub(crate) fn renew_trees<L: Ledger>(
        &self,
        alloc: Global,
        types: &mut TypeTable,
        ctxs: &mut CtxTable,
        heads: &'t [Vertex],
        steps: &mut Steps<L>,
    ) -> Result<Vec<(Vertex, Record)>, NoMemory>
        requires records { AreRecordsOf types.old ctxs.old self.now.records.now }
        requires heads { AllByRecursion (λ v. class (live self.now.graph.now) v ≡ Inner → ⊥) heads.now }
        ensures trees { IfOk result (λ made. HasMadeTrees (live self.now.graph.now) types.new ctxs.new self.now.records.now (on self.now.whole self.now.passed.now) heads.now made.items) }
        ensures made { IfOk result (λ made. AreMadeOf types.new ctxs.new made.items) }
        ensures ticks { IfOk result (λ made. steps.new ≤ steps.old + 5 * weight_of (live self.now.graph.now) made.items) }
        ensures paid { AreTreesPaidFor (live self.now.graph.now) types.old ctxs.old self.now.records.now (on self.now.whole self.now.passed.now) heads.now steps.old steps.new }
        ensures types { KeepsTypes types.old types.new }
        ensures contexts { KeepsContexts ctxs.old ctxs.new }
    {
        let mut made = Vec::new(alloc);
        for head in heads {
            self.renew_tree(alloc, types, ctxs, head, &mut made, steps)?;
        }
        Ok(made)
    }
}
