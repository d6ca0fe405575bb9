ghost use Rattle.std.specs.Prelude.{◌≡◌, ℕ, List, ◌++◌, OnOk, OnErr};
ghost use Rattle.std.specs.List.{AllByRecursion};
ghost use Rattle.grove_edits.specs.Graph.{graph, Ascends};
ghost use Rattle.graph_words.specs.Whole.{AreLive};
ghost use Rattle.graph_table.specs.Table.{live, vertex_at};
ghost use Rattle.grove_decompose.specs.Trees.{OnlyInner, vertices_of};
ghost use Rattle.grove_printer.specs.Print.{Extends};
ghost use Rattle.grove_answers.specs.Reports.{AreReported, TakesSection, IsReported};
ghost use Rattle.grove_answers.specs.Texts.{IsPrintText};
ghost use Rattle.mark_incremental.specs.Standing.{StandFor};
ghost use Rattle.kept_printer.specs.Printed.{IsTreeHead, IsAppended, begins, takes};

use crate::marking_trees::marked_by_records;
use edit_table::EditTable;
use graph_table::GraphTable;
use grove_decompose::{Seen, cycle_heads, heads_of, tree_by_number};
use grove_printer::{Section, append_heading, append_tree, whole_or_nothing};
use mark_incremental::Marks;
use std::alloc::Global;
use text_parts::NoMemory;
use type_core::TypePrinter;

/// Appends the print text of the graph of a table whose edits ascend, by marks that stand for it: no expression is judged again.
pub fn append_print_text(
    alloc: Global,
    table: EditTable,
    marks: &Marks,
    out: &mut Vec<u8>,
) -> Result<(), NoMemory>
    requires in_order { Ascends table.edits }
    requires stand { StandFor (graph table.edits) marks.now }
    ensures appended { OnOk result ((text : List ℕ) × IsPrintText (graph table.edits) text × (out.new.items ≡ out.old.items ++ text)) }
    ensures unchanged { OnErr result (out.new.items ≡ out.old.items) }
{
    let table = GraphTable::of(alloc, table)?;
    let start = out.len();
    let written = append_grove(alloc, &table, marks, out);
    whole_or_nothing(written, start, out)
}

// After an error each of the functions below may have appended a part.

// Appends the trees of a graph, in the order of the print text and under its headings.
fn append_grove(
    alloc: Global,
    table: &GraphTable,
    marks: &Marks,
    out: &mut Vec<u8>,
) -> Result<(), NoMemory>
    requires stand { StandFor (graph table.now.edits) marks.now }
    requires whole { AreLive (graph table.now.edits) (live table.now) }
    ensures printed { OnOk result (IsReported begins takes (graph table.now.edits) out.old.items out.new.items) }
    ensures in_part { OnErr result (Extends out.old.items out.new.items) }
{
    let heads = heads_of(alloc, table)?;
    let mut seen = Seen::none_of(alloc, table)?;
    let mut printer = TypePrinter::new(alloc, marks.types());
    append_section(
        alloc,
        Section::NoParent,
        table,
        &heads.none,
        &mut seen,
        marks,
        &mut printer,
        out,
    )?;
    append_section(
        alloc,
        Section::Multi,
        table,
        &heads.multi,
        &mut seen,
        marks,
        &mut printer,
        out,
    )?;
    let cycles = cycle_heads(alloc, table, &seen)?;
    append_section(
        alloc,
        Section::Cycle,
        table,
        &cycles,
        &mut seen,
        marks,
        &mut printer,
        out,
    )
}

// Appends the trees of some vertices that head one each, under a heading.
fn append_section(
    alloc: Global,
    section: Section,
    table: &GraphTable,
    heads: &[u32],
    seen: &mut Seen,
    marks: &Marks,
    printer: &mut TypePrinter,
    out: &mut Vec<u8>,
) -> Result<(), NoMemory>
    requires stand { StandFor (graph table.now.edits) marks.now }
    requires whole { AreLive (graph table.now.edits) (live table.now) }
    requires heads { AllByRecursion (IsTreeHead table.now) heads.now }
    requires seen { OnlyInner table.now seen.old }
    requires types { printer.old ≡ marks.now.types }
    ensures printed { OnOk result (AreReported (TakesSection begins takes section) (live table.now) (vertices_of table.now heads.now) out.old.items out.new.items) }
    ensures seen { OnOk result (OnlyInner table.now seen.new) }
    ensures types { printer.new ≡ printer.old }
    ensures in_part { OnErr result (Extends out.old.items out.new.items) }
{
    append_heading(section, heads.len(), out)?;
    append_trees(alloc, table, heads, seen, marks, printer, out)
}

fn append_trees(
    alloc: Global,
    table: &GraphTable,
    heads: &[u32],
    seen: &mut Seen,
    marks: &Marks,
    printer: &mut TypePrinter,
    out: &mut Vec<u8>,
) -> Result<(), NoMemory>
    requires stand { StandFor (graph table.now.edits) marks.now }
    requires whole { AreLive (graph table.now.edits) (live table.now) }
    requires heads { AllByRecursion (IsTreeHead table.now) heads.now }
    requires seen { OnlyInner table.now seen.old }
    requires types { printer.old ≡ marks.now.types }
    ensures printed { OnOk result (AreReported takes (live table.now) (vertices_of table.now heads.now) out.old.items out.new.items) }
    ensures seen { OnOk result (OnlyInner table.now seen.new) }
    ensures types { printer.new ≡ printer.old }
    ensures in_part { OnErr result (Extends out.old.items out.new.items) }
{
    for head in heads {
        append_tree_of(alloc, table, *head, seen, marks, printer, out)?;
    }
    Ok(())
}

// Appends the tree of a vertex that heads one, by its number.
fn append_tree_of(
    alloc: Global,
    table: &GraphTable,
    head: u32,
    seen: &mut Seen,
    marks: &Marks,
    printer: &mut TypePrinter,
    out: &mut Vec<u8>,
) -> Result<(), NoMemory>
    requires stand { StandFor (graph table.now.edits) marks.now }
    requires whole { AreLive (graph table.now.edits) (live table.now) }
    requires head { IsTreeHead table.now head }
    requires seen { OnlyInner table.now seen.old }
    requires types { printer.old ≡ marks.now.types }
    ensures printed { OnOk result (IsAppended (live table.now) (vertex_at table.now head) out.old.items out.new.items) }
    ensures seen { OnOk result (OnlyInner table.now seen.new) }
    ensures types { printer.new ≡ printer.old }
    ensures in_part { OnErr result (Extends out.old.items out.new.items) }
{
    let tree = tree_by_number(alloc, table, head, seen)?;
    let marked = marked_by_records(alloc, &tree, marks)?;
    append_tree(&marked, printer, out)
}
