ghost use Rattle.std.specs.Prelude.{◌≡◌, IfOk, OnOk};
ghost use Rattle.std.specs.List.{AllByRecursion};
ghost use Rattle.grove_edits.specs.Graph.{graph, Ascends};
ghost use Rattle.graph_words.specs.Whole.{AreLive};
ghost use Rattle.graph_table.specs.Table.{live};
ghost use Rattle.grove_decompose.specs.Trees.{OnlyInner, vertices_of};
ghost use Rattle.grove_answers.specs.Program.{IsHead, IsProgram};
ghost use Rattle.grove_answers.specs.Reports.{AreReported, TakesSection, IsReported};

use crate::parted_report::PartedReport;
use crate::parts::{Reporting, report_in_parts};
use crate::program::Program;
use crate::report::Report;
use crate::walk::Walk;
use edit_table::EditTable;
use graph_table::GraphTable;
use grove_decompose::{Seen, cycle_heads};
use grove_printer::Section;
use seeded_hash::HashSeed;
use std::alloc::Global;
use std::thread::Threads;
use text_parts::NoMemory;

/// Reports all trees of the graph of a table whose edits ascend, in the order of the print text. What it looks up it finds by hashes under
/// a seed.
pub fn report_graph<R: Report>(
    alloc: Global,
    table: EditTable,
    seed: HashSeed,
    report: &mut R,
) -> Result<(), NoMemory>
    requires { Ascends table.edits }
    ensures { OnOk result (IsReported R.begins R.takes (graph table.edits) report.old report.new) }
{
    let program = Program::of(alloc, table, seed)?;
    report_program(alloc, &program, report)
}

/// The same, with the trees of each list in so many parts side by side. It hands the report on.
pub(crate) fn report_graph_in_parts<R: PartedReport + Drop + Send, T: Threads + Sync>(
    rt: &T,
    alloc: Global,
    table: EditTable,
    seed: HashSeed,
    parts: usize,
    report: R,
) -> Result<R, NoMemory>
    requires { Ascends table.edits }
    ensures { IfOk result (λ after. IsReported R.begins R.takes (graph table.edits) report after) }
{
    let program = Program::of(alloc, table, seed)?;
    report_program_in_parts(rt, alloc, &program, parts, report)
}

// Reports all trees of a program, those of each list in so many parts side by side.
fn report_program_in_parts<R: PartedReport + Drop + Send, T: Threads + Sync>(
    rt: &T,
    alloc: Global,
    program: &Program,
    parts: usize,
    report: R,
) -> Result<R, NoMemory>
    requires { IsProgram program.now }
    ensures { IfOk result (λ after. IsReported R.begins R.takes (graph program.now.table.edits) report after) }
{
    let table = &program.table;
    let heads = &program.heads;
    let seed = program.seed;
    let reporting = Reporting {
        seen: Seen::none_of(alloc, table)?,
        report,
    };
    let reporting = report_section_in_parts(
        rt,
        alloc,
        Section::NoParent,
        table,
        seed,
        &heads.none,
        parts,
        reporting,
    )?;
    let reporting = report_section_in_parts(
        rt,
        alloc,
        Section::Multi,
        table,
        seed,
        &heads.multi,
        parts,
        reporting,
    )?;
    let cycles = cycle_heads(alloc, table, &reporting.seen)?;
    let reporting = report_section_in_parts(
        rt,
        alloc,
        Section::Cycle,
        table,
        seed,
        &cycles,
        parts,
        reporting,
    )?;
    Ok(reporting.report)
}

// Goes on with a report by the trees of some vertices that head one each, under a heading.
fn report_section_in_parts<R: PartedReport + Drop + Send, T: Threads + Sync>(
    rt: &T,
    alloc: Global,
    section: Section,
    table: &GraphTable,
    seed: HashSeed,
    heads: &[u32],
    parts: usize,
    before: Reporting<R>,
) -> Result<Reporting<R>, NoMemory>
    requires whole { AreLive (graph table.now.edits) (live table.now) }
    requires heads { AllByRecursion (IsHead table.now) heads.now }
    requires seen { OnlyInner table.now before.seen }
    ensures reported { IfOk result (λ after. AreReported (TakesSection R.begins R.takes section) (live table.now) (vertices_of table.now heads.now) before.report after.report) }
    ensures seen { IfOk result (λ after. OnlyInner table.now after.seen) }
{
    let Reporting { seen, mut report } = before;
    report.begin(section, heads.len())?;
    report_in_parts(
        rt,
        alloc,
        table,
        seed,
        heads,
        parts,
        Reporting { seen, report },
    )
}

// Reports all trees of a program.
fn report_program<R: Report>(
    alloc: Global,
    program: &Program,
    report: &mut R,
) -> Result<(), NoMemory>
    requires { IsProgram program.now }
    ensures { OnOk result (IsReported R.begins R.takes (graph program.now.table.edits) report.old report.new) }
{
    let table = &program.table;
    let heads = &program.heads;
    let mut walk = Walk::new(alloc, table, program.seed)?;
    report_section(
        alloc,
        Section::NoParent,
        table,
        &heads.none,
        &mut walk,
        report,
    )?;
    report_section(
        alloc,
        Section::Multi,
        table,
        &heads.multi,
        &mut walk,
        report,
    )?;
    let cycles = cycle_heads(alloc, table, &walk.seen)?;
    report_section(alloc, Section::Cycle, table, &cycles, &mut walk, report)
}

// Reports the trees of some vertices that head one each, under a heading.
fn report_section<'g, R: Report>(
    alloc: Global,
    section: Section,
    table: &'g GraphTable,
    heads: &[u32],
    walk: &mut Walk<'g>,
    report: &mut R,
) -> Result<(), NoMemory>
    requires whole { AreLive (graph table.now.edits) (live table.now) }
    requires heads { AllByRecursion (IsHead table.now) heads.now }
    requires seen { OnlyInner table.now walk.old.seen }
    ensures reported { OnOk result (AreReported (TakesSection R.begins R.takes section) (live table.now) (vertices_of table.now heads.now) report.old report.new) }
    ensures seen { OnOk result (OnlyInner table.now walk.new.seen) }
{
    report.begin(section, heads.len())?;
    report_trees(alloc, table, heads, walk, report)
}

pub(crate) fn report_trees<'g, R: Report>(
    alloc: Global,
    table: &'g GraphTable,
    heads: &[u32],
    walk: &mut Walk<'g>,
    report: &mut R,
) -> Result<(), NoMemory>
    requires whole { AreLive (graph table.now.edits) (live table.now) }
    requires heads { AllByRecursion (IsHead table.now) heads.now }
    requires seen { OnlyInner table.now walk.old.seen }
    ensures reported { OnOk result (AreReported R.takes (live table.now) (vertices_of table.now heads.now) report.old report.new) }
    ensures seen { OnOk result (OnlyInner table.now walk.new.seen) }
{
    for head in heads {
        let tree = walk.tree(alloc, table, *head)?;
        let marked = walk.marking(alloc, &tree)?;
        report.take(&marked, &walk.types)?;
    }
    Ok(())
}
