ghost use Rattle.std.specs.Prelude.{◌≡◌};
ghost use Rattle.graph_words.specs.Few.{first_two};
ghost use Rattle.live_graph.specs.FewEdges.{few_of};

use crate::edges::{Edges, LiveEdge};

/// The least two of some live edges, or fewer where there are fewer, lent by their graph.
#[derive(Drop)]
pub enum FewEdges<'g> {
    Zero,
    One(LiveEdge<'g>),
    More(LiveEdge<'g>, LiveEdge<'g>),
}

/// The first two of some edges, or fewer where there are fewer.
pub(crate) fn first_two_of<'g>(edges: &Edges<'g>) -> FewEdges<'g>
    ensures { few_of result ≡ first_two edges.now }
{
    let Some((first, others)) = edges.split_first() else {
        return FewEdges::Zero;
    };
    match others.split_first() {
        Some((second, _later)) => FewEdges::More(first, second),
        None => FewEdges::One(first),
    }
}
