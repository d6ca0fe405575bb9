ghost use Rattle.std.specs.Prelude.{IfOk, OnOk};
ghost use Rattle.std.specs.List.{AllByRecursion};
ghost use Rattle.std.specs.Thread.{IsSync, IsSend};
ghost use Rattle.grove_edits.specs.Graph.{graph};
ghost use Rattle.graph_words.specs.Whole.{AreLive};
ghost use Rattle.graph_table.specs.Table.{live};
ghost use Rattle.grove_decompose.specs.Trees.{OnlyInner, vertices_of};
ghost use Rattle.grove_answers.specs.Program.{IsHead};
ghost use Rattle.grove_answers.specs.Reports.{AreReported};

use crate::parted_report::PartedReport;
use crate::reporting::report_trees;
use crate::walk::Walk;
use graph_table::GraphTable;
use grove_decompose::Seen;
use seeded_hash::HashSeed;
use std::alloc::Global;
use std::thread::{Threads, join};
use text_parts::NoMemory;

/// A report, with the vertices that its trees were seen to have under others.
#[derive(Drop)]
pub(crate) struct Reporting<R> {
    pub(crate) seen: Seen,
    pub(crate) report: R,
}

/// Goes on with a report by the trees of some vertices that head one each, in so many parts side by side. Types and contexts of a part are
/// found by hashes under the seed.
pub(crate) fn report_in_parts<R: PartedReport + Drop + Send, T: Threads + Sync>(
    rt: &T,
    alloc: Global,
    table: &GraphTable,
    seed: HashSeed,
    heads: &[u32],
    parts: usize,
    before: Reporting<R>,
) -> Result<Reporting<R>, NoMemory>
    requires whole { AreLive (graph table.now.edits) (live table.now) }
    requires heads { AllByRecursion (IsHead table.now) heads.now }
    requires seen { OnlyInner table.now before.seen }
    ensures reported { IfOk result (λ after. AreReported R.takes (live table.now) (vertices_of table.now heads.now) before.report after.report) }
    ensures seen { IfOk result (λ after. OnlyInner table.now after.seen) }
{
    if parts < 2 || heads.len() < 2 {
        return report_part(alloc, table, seed, heads, before);
    }
    let apart = Reporting {
        seen: Seen::none_of(alloc, table)?,
        report: R::blank(alloc),
    };
    let (front, back) = heads.split_at(heads.len() / 2);
    let fewer = parts / 2;
    let others = parts - fewer;
    let (back, front) = join(
        rt,
        move || -> Result<Reporting<R>, NoMemory>
            requires { AreLive (graph table.now.edits) (live table.now) × AllByRecursion (IsHead table.now) back.now × OnlyInner table.now apart.seen }
            ensures { IfOk result (λ after. AreReported R.takes (live table.entry.now) (vertices_of table.entry.now back.entry.now) apart.report after.report) }
        { report_in_parts(rt, alloc, table, seed, back, others, apart) },
        move || -> Result<Reporting<R>, NoMemory>
            requires { AreLive (graph table.now.edits) (live table.now) × AllByRecursion (IsHead table.now) front.now × OnlyInner table.now before.seen }
            ensures { IfOk result (λ after. AreReported R.takes (live table.entry.now) (vertices_of table.entry.now front.entry.now) before.report after.report × OnlyInner table.entry.now after.seen) }
        { report_in_parts(rt, alloc, table, seed, front, fewer, before) },
    );
    let mut front = front?;
    let back = back?;
    front.report.join(&back.report)?;
    Ok(front)
}

// Goes on with a report by the trees of some vertices that head one each.
fn report_part<R: PartedReport + Drop>(
    alloc: Global,
    table: &GraphTable,
    seed: HashSeed,
    heads: &[u32],
    before: Reporting<R>,
) -> Result<Reporting<R>, NoMemory>
    requires whole { AreLive (graph table.now.edits) (live table.now) }
    requires heads { AllByRecursion (IsHead table.now) heads.now }
    requires seen { OnlyInner table.now before.seen }
    ensures reported { IfOk result (λ after. AreReported R.takes (live table.now) (vertices_of table.now heads.now) before.report after.report) }
    ensures seen { IfOk result (λ after. OnlyInner table.now after.seen) }
{
    let Reporting { seen, mut report } = before;
    let mut walk = Walk::after(alloc, seen, seed)?;
    report_trees(alloc, table, heads, &mut walk, &mut report)?;
    let seen = walk.into_seen();
    Ok(Reporting { seen, report })
}
