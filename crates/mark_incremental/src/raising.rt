ghost use Rattle.std.specs.Prelude.{◌≡◌};
ghost use Rattle.grove_edits.specs.Edit.{edit_edge};
ghost use Rattle.grove_edits.specs.Graph.{IsSame};
ghost use Rattle.graph_words.specs.Whole.{AreLive};
ghost use Rattle.graph_words.specs.States.{Entries, state_in, HasRoom, KeepsRoom};
ghost use Rattle.live_graph.specs.Live.{live};
ghost use Rattle.live_graph.specs.NumberOf.{IsNumberOf, KeepsNumbersOf};
ghost use Rattle.mark_incremental.specs.Raising.{WasRaised};

use grove_edits::Edit;
use live_graph::{Change, LiveGraph};

/// Joins what an edit asks to a graph, in which its edge has this number.
pub(crate) fn raise(edit: &Edit, number: usize, graph: &mut LiveGraph) -> Change
    requires number { IsNumberOf graph.old (edit_edge edit.now) number }
    ensures raised { WasRaised edit.now result graph.old graph.new }
    ensures live { AreLive (state_in graph.new) (live graph.new) }
    ensures room_stays { KeepsRoom graph.old graph.new }
    ensures numbers_stay { KeepsNumbersOf graph.old graph.new }
{
    let change = graph.raise_at(number, edit.kind());
    // The live edges are those whose state is Live.
    let _edges = graph.edge_count();
    change
}

/// Undoes what raising an edit changed.
pub(crate) fn put_back(edit: &Edit, change: Change, graph: &mut LiveGraph)
    requires room { HasRoom graph.old (edit_edge edit.now) }
    ensures put_back { (before : Entries) → WasRaised edit.now change before graph.old → IsSame (state_in graph.new) (state_in before) }
    ensures room_stays { KeepsRoom graph.old graph.new }
    ensures numbers_stay { KeepsNumbersOf graph.old graph.new }
{
    match change {
        Change::Same => {}
        Change::Raised { old } => graph.put_back(&edit.edge(), old),
    }
}
