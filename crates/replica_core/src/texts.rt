ghost use Rattle.std.specs.Prelude.{◌≡◌, ◌++◌, ℕ, List, IfOk, OnOk, OnErr};
ghost use Rattle.grove_edits.specs.Graph.{graph, Ascends};
ghost use Rattle.grove_answers.specs.Texts.{IsPrintText};
ghost use Rattle.mark_incremental.specs.Standing.{StandFor};

use edit_table::EditTable;
use grove_edits::EditList;
use mark_incremental::Marks;
use seeded_hash::HashSeed;
use std::alloc::Global;
use text_parts::NoMemory;

/// Appends the print text of the graph of a canonical list, by marks that stand for it.
pub(crate) fn append_print_text(
    alloc: Global,
    edits: EditList,
    seed: HashSeed,
    marks: &Marks,
    out: &mut Vec<u8>,
) -> Result<(), NoMemory>
    requires in_order { Ascends edits }
    requires stand { StandFor (graph edits) marks.now }
    ensures appended { OnOk result ((text : List ℕ) × IsPrintText (graph edits) text × (out.new.items ≡ out.old.items ++ text)) }
    ensures unchanged { OnErr result (out.new.items ≡ out.old.items) }
{
    let table = table_of(alloc, edits, seed)?;
    kept_printer::append_print_text(alloc, table, marks, out)
}

// The table of a canonical list, which is let go.
fn table_of(alloc: Global, edits: EditList, seed: HashSeed) -> Result<EditTable, NoMemory>
    requires { Ascends edits }
    ensures { IfOk result (λ table. table.edits ≡ edits) }
{
    let table = EditTable::of_list(alloc, &edits, seed)?;
    Ok(table)
}
