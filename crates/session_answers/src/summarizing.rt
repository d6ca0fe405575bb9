ghost use Rattle.std.specs.Prelude.{◌≡◌, ◌<◌, ◌↔◌, ℕ, true, List, length, count_by, IsTrue, IfOk};
ghost use Rattle.grove_edits.specs.Graph.{graph, Ascends};
ghost use Rattle.grove_answers.specs.Counts.{AreCounts};
ghost use Rattle.grove_answers.specs.Texts.{IsPrintText};
ghost use Rattle.session_script.specs.Session.{IsSession};
ghost use Rattle.session_report.specs.Legal.{AreLegal};
ghost use Rattle.session_report.specs.Summary.{IsSummary, is_load, live_count, deleted_count};
ghost use Rattle.session_answers.specs.Summarizing.{SummarizesReplicas, PrintAlike};

use crate::ran::{Ran, run_items};
use crate::running::Running;
use edit_table::EditTable;
use grove_answers::{Counts, grove_counts};
use grove_edits::{Edit, EditKind, EditList};
use grove_io::Gate;
use replica_core::Replica;
use seeded_hash::HashSeed;
use session_report::{Summary, summary_text};
use session_script::{Item, Session};
use std::alloc::Global;
use std::sync::Wait;
use std::thread::Threads;
use text_parts::NoMemory;

/// Runs a session as `run_session` does, and writes its summary in place of its report.
pub fn summarize_session<R: Threads + Wait + Sync, G: Gate>(
    rt: &R,
    alloc: Global,
    seed: HashSeed,
    session: &Session,
    gate: &G,
) -> Result<Ran, NoMemory>
    requires { IsSession session.now }
    ensures legal { IfOk result (λ ran. AreLegal session.now ran.journals) }
    ensures summary { IfOk result (λ ran. IsSummary session.now ran.journals ran.text.items) }
{
    let running = run_items(rt, alloc, seed, session, gate)?;
    let summary = summary_of(alloc, seed, session.items.as_slice(), &running.replicas)?;
    let text = summary_text(alloc, &summary)?;
    let Running { journals, .. } = running;
    Ok(Ran { text, journals })
}

// The summary of a session with these items, at whose end these are its replicas.
fn summary_of(
    alloc: Global,
    seed: HashSeed,
    items: &[Item],
    replicas: &[Replica],
) -> Result<Summary, NoMemory>
    requires { 0 < length replicas.now }
    ensures { IfOk result (SummarizesReplicas items.now replicas.now) }
{
    let (first, others) = replicas.split_first().unwrap();
    let edits = first.in_order(alloc)?;
    let live = live_in(edits.as_slice()) as u64;
    let deleted = deleted_in(edits.as_slice()) as u64;
    let equal = print_alike(alloc, first, edits.as_slice(), others)?;
    Ok(Summary {
        loads: loads_in(items) as u64,
        live,
        deleted,
        counts: counts_of(alloc, &edits, seed)?,
        equal,
    })
}

fn counts_of(alloc: Global, edits: &EditList, seed: HashSeed) -> Result<Counts, NoMemory>
    requires { Ascends edits.now }
    ensures { IfOk result (AreCounts (graph edits.now)) }
{
    let table = EditTable::of_list(alloc, edits, seed)?;
    Ok(grove_counts(alloc, table, seed)?)
}

fn loads_in(items: &[Item]) -> usize
    ensures { result ≡ count_by is_load items.now }
{
    items.iter().filter(|item| is_load(item)).count()
}

fn is_load(item: &Item) -> bool
    ensures { result ≡ is_load item.now }
{
    match item {
        Item::Load { .. } => true,
        _ => false,
    }
}

fn live_in(edits: &[Edit]) -> usize
    ensures { result ≡ live_count edits.now }
{
    edits
        .iter()
        .filter(|edit| edit.kind() == EditKind::Insert)
        .count()
}

fn deleted_in(edits: &[Edit]) -> usize
    ensures { result ≡ deleted_count edits.now }
{
    edits
        .iter()
        .filter(|edit| edit.kind() == EditKind::Delete)
        .count()
}

// Whether all replicas print what the first prints, whose canonical list this is.
fn print_alike(
    alloc: Global,
    first: &Replica,
    edits: &[Edit],
    others: &[Replica],
) -> Result<bool, NoMemory>
    requires list { edits.now ≡ first.now.edits }
    requires ascends { Ascends edits.now }
    ensures { IfOk result (PrintAlike first.now others.now) }
{
    for other in others {
        if !prints_alike(alloc, first, edits, other)? {
            return Ok(false);
        }
    }
    Ok(true)
}

// Whether another replica prints what the first prints. It does if it has the same canonical list, so the texts are made only where that
// is not told.
fn prints_alike(
    alloc: Global,
    first: &Replica,
    edits: &[Edit],
    other: &Replica,
) -> Result<bool, NoMemory>
    requires list { edits.now ≡ first.now.edits }
    requires ascends { Ascends edits.now }
    ensures { (text : List ℕ) → IsPrintText (graph first.now.edits) text → IfOk result (λ alike. IsTrue alike ↔ IsPrintText (graph other.now.edits) text) }
{
    if other.is_listed(alloc, edits)? {
        return Ok(true);
    }
    let text = printed(alloc, first)?;
    prints(alloc, other, &text)
}

fn prints(alloc: Global, replica: &Replica, text: &[u8]) -> Result<bool, NoMemory>
    ensures { IfOk result (λ alike. IsTrue alike ↔ IsPrintText (graph replica.now.edits) text.now) }
{
    let own = printed(alloc, replica)?;
    Ok(own.as_slice() == text)
}

fn printed(alloc: Global, replica: &Replica) -> Result<Vec<u8>, NoMemory>
    ensures { IfOk result (λ text. IsPrintText (graph replica.now.edits) text.items) }
{
    let mut text = Vec::new(alloc);
    replica.print(alloc, &mut text)?;
    Ok(text)
}
