ghost use Rattle.std.specs.Prelude.{◌≡◌, ◌++◌, [], IfOk};
ghost use Rattle.grove_edits.specs.Graph.{graph, Ascends};
ghost use Rattle.grove_printer.specs.Print.{heading, trees_text};
ghost use Rattle.grove_answers.specs.Texts.{IsPrintText};
ghost use Rattle.grove_answers.specs.Laws.{prints_none, prints_more};

use crate::parted_report::PartedReport;
use crate::report::Report;
use crate::reporting::{report_graph, report_graph_in_parts};
use edit_table::EditTable;
use grove_printer::{Section, print_heading, print_tree};
use marking::MarkedTree;
use seeded_hash::HashSeed;
use std::alloc::Global;
use std::thread::Threads;
use text_parts::NoMemory;
use type_core::TypeTable;

/// The text of `show`, of a table whose edits ascend: under a heading for each of the three lists of trees a line for each node. What it
/// looks up it finds by hashes under a seed.
pub fn print_text(alloc: Global, table: EditTable, seed: HashSeed) -> Result<Vec<u8>, NoMemory>
    requires { Ascends table.edits }
    ensures { IfOk result (λ text. IsPrintText (graph table.edits) text.items) }
{
    let mut shown = Shown {
        text: Vec::new(alloc),
    };
    report_graph(alloc, table, seed, &mut shown)?;
    Ok(shown.text)
}

/// The same text, its trees printed in so many parts side by side.
pub fn print_text_in_parts<T: Threads + Sync>(
    rt: &T,
    alloc: Global,
    table: EditTable,
    seed: HashSeed,
    parts: usize,
) -> Result<Vec<u8>, NoMemory>
    requires { Ascends table.edits }
    ensures { IfOk result (λ text. IsPrintText (graph table.edits) text.items) }
{
    let shown = Shown {
        text: Vec::new(alloc),
    };
    let shown = report_graph_in_parts(rt, alloc, table, seed, parts, shown)?;
    Ok(shown.text)
}

// The print text so far.
#[derive(Drop)]
struct Shown {
    text: Vec<u8>,
}

impl Report for Shown {
    ghost begins = { λ before section trees after. after.text.items ≡ before.text.items ++ heading section trees };

    ghost takes = { λ before trees marked after. after.text.items ≡ before.text.items ++ trees_text marked };

    ghost takes_none = { λ shown. prints_none shown.text.items };

    ghost takes_more = { λ r s t a b m n first then. prints_more r.text.items s.text.items t.text.items m n first then };

    fn begin(&mut self, section: Section, trees: usize) -> Result<(), NoMemory> {
        Ok(print_heading(section, trees, &mut self.text)?)
    }

    fn take(&mut self, marked: &MarkedTree, types: &TypeTable) -> Result<(), NoMemory> {
        Ok(print_tree(marked, types, &mut self.text)?)
    }
}

impl PartedReport for Shown {
    ghost is_blank = { λ shown. shown.text.items ≡ [] };

    fn blank(alloc: Global) -> Shown {
        Shown {
            text: Vec::new(alloc),
        }
    }

    fn join(&mut self, part: &Shown) -> Result<(), NoMemory> {
        self.text.extend_from_slice(&part.text)?;
        Ok(())
    }
}
