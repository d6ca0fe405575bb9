ghost use Rattle.std.specs.Prelude.{OnOk, IfOk};
ghost use Rattle.grove_edits.specs.Graph.{IsSame, graph, graph_join};
ghost use Rattle.graph_words.specs.States.{state_in};

use grove_edits::Edit;
use live_graph::LiveGraph;
use seeded_hash::HashSeed;
use std::alloc::Global;
use text_parts::NoMemory;

// Joins what some edits ask to a graph. Where memory runs out, those before the edit that found none are joined.
fn raise_each(kept: &mut LiveGraph, edits: &[Edit]) -> Result<(), NoMemory>
    ensures { OnOk result (IsSame (state_in kept.new) (graph_join (state_in kept.old) (graph edits.now))) }
{
    for edit in edits {
        let number = kept.make_room(&edit.edge())?;
        kept.raise_at(number, edit.kind());
    }
    Ok(())
}

/// The graph that some edits make. Its vertices and edges are found by their hash under a seed.
pub fn graph_of(alloc: Global, seed: HashSeed, edits: &[Edit]) -> Result<LiveGraph, NoMemory>
    ensures graph { IfOk result (λ made. IsSame (state_in made) (graph edits.now)) }
{
    let mut made = LiveGraph::with_seed(alloc, seed);
    raise_each(&mut made, edits)?;
    Ok(made)
}
