ghost use Rattle.std.specs.Prelude.{◌≡◌, ◌++◌, ℕ, List, OnOk};
ghost use Rattle.std.specs.List.{AllByRecursion};
ghost use Rattle.grove_edits.specs.Graph.{graph, Ascends};
ghost use Rattle.graph_table.specs.Table.{live};
ghost use Rattle.grove_decompose.specs.Trees.{OnlyInner, vertices_of};
ghost use Rattle.graph_words.specs.Whole.{AreLive};
ghost use Rattle.infer_answers.specs.Texts.{IsInferText};
ghost use Rattle.infer_answers.specs.Telling.{AreHeads, AreInferred, IsHead};

use crate::tree_text::append_tree;
use edit_table::EditTable;
use graph_table::GraphTable;
use grove_decompose::{NumberedHeads, Seen, cycle_heads, heads_of, tree_by_number};
use seeded_hash::HashSeed;
use std::alloc::Global;
use text_parts::NoMemory;

/// Appends the text of `infer`, of a table whose edits ascend: for each tree in the order of the print text whose head is a program or an
/// expression its name, and then a line for each of its holes for types with the type that must stand there, or the number of the first
/// equation that cannot hold. What it looks up it finds by hashes under a seed.
pub fn append_infer_text(
    alloc: Global,
    table: EditTable,
    seed: HashSeed,
    out: &mut Vec<u8>,
) -> Result<(), NoMemory>
    requires { Ascends table.edits }
    ensures { OnOk result ((text : List ℕ) × IsInferText (graph table.edits) text × (out.new.items ≡ out.old.items ++ text)) }
{
    let table = GraphTable::of(alloc, table)?;
    let heads = heads_of(alloc, &table)?;
    append_grove(alloc, &table, &heads, seed, out)
}

fn append_grove(
    alloc: Global,
    table: &GraphTable,
    heads: &NumberedHeads,
    seed: HashSeed,
    out: &mut Vec<u8>,
) -> Result<(), NoMemory>
    requires live { AreLive (graph table.now.edits) (live table.now) }
    requires heads { AreHeads table.now heads.now }
    ensures { OnOk result ((text : List ℕ) × IsInferText (graph table.now.edits) text × (out.new.items ≡ out.old.items ++ text)) }
{
    let mut seen = Seen::none_of(alloc, table)?;
    append_trees(alloc, table, seed, &heads.none, &mut seen, out)?;
    append_trees(alloc, table, seed, &heads.multi, &mut seen, out)?;
    let cycles = cycle_heads(alloc, table, &seen)?;
    append_trees(alloc, table, seed, &cycles, &mut seen, out)
}

// Appends what is said of the trees of some vertices that head one each.
fn append_trees(
    alloc: Global,
    table: &GraphTable,
    seed: HashSeed,
    heads: &[u32],
    seen: &mut Seen,
    out: &mut Vec<u8>,
) -> Result<(), NoMemory>
    requires heads { AllByRecursion (IsHead table.now) heads.now }
    requires seen { OnlyInner table.now seen.old }
    ensures inferred { OnOk result (AreInferred (live table.now) (vertices_of table.now heads.now) out.old.items out.new.items) }
    ensures seen { OnOk result (OnlyInner table.now seen.new) }
{
    for head in heads {
        let tree = tree_by_number(alloc, table, *head, seen)?;
        let vertex = table.vertex(*head as usize).lent();
        append_tree(alloc, vertex, tree.as_slice(), seed, out)?;
    }
    Ok(())
}
