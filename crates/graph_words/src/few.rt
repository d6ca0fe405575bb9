ghost use Rattle.std.specs.Prelude.{◌≡◌, ◌+◌, length};
ghost use Rattle.graph_words.specs.Live.{IsInEdgeOrder, parents_of, targets_of};
ghost use Rattle.graph_words.specs.Few.{first_two, few_len};

use crate::steps::Steps;
use grove_edits::{Edge, Vertex};
use std::sync::ledger::Ledger;

/// The least two of some edges, or fewer where there are fewer.
#[derive(Clone, Copy, Debug, PartialEq, Eq)]
pub enum Few {
    Zero,
    One(Edge),
    More(Edge, Edge),
}

/// What tells the live parent edges of each vertex.
pub trait ParentOf {
    ghost use Rattle.std.specs.Prelude.{List};
    ghost use Rattle.grove_edits.specs.declared.edge.Edge.{Edge};

    /// The live edges, in edge order.
    ghost live: { Self → List Edge };

    /// The least two live parent edges. It ticks once for the call, and once for each edge answered.
    fn few<L: Ledger>(&self, vertex: &Vertex, steps: &mut Steps<L>) -> Few
        ensures least { result ≡ first_two (parents_of vertex.now (live self.now)) }
        ensures ticks { steps.new ≡ steps.old + 1 + few_len result }
        ensures in_order { IsInEdgeOrder (live self.now) };

    /// How many vertices have a live parent edge.
    fn vertex_count(&self) -> u64
        ensures count { result ≡ length (targets_of (live self.now)) }
        ensures in_order { IsInEdgeOrder (live self.now) };
}
