//! Runs a block: its authors and its `send` lines are at work at once.
ghost use Rattle.std.specs.Prelude.{◌≡◌, ℕ, ◌+◌, ◌^◌, ◌<◌, List, [], length, slice_get, vec_capacity, Some, IfOk, OnOk};
ghost use Rattle.std.specs.List.{AllByRecursion};
ghost use Rattle.grove_edits.specs.declared.command.Command.{Command};
ghost use Rattle.grove_edits.specs.declared.answer.Answer.{Answer};
ghost use Rattle.shared_replica.specs.declared.journal.Entry.{Entry};
ghost use Rattle.session_script.specs.Session.{AllDiffer, author_numbers};
ghost use Rattle.author_desk.specs.declared.cuts.Cuts.{Cuts};
ghost use Rattle.author_desk.specs.Cuts.{opening_edits, Raises, KeepsSeat};
ghost use Rattle.session_run.specs.Asked.{IsNumberIn};
ghost use Rattle.session_run.specs.Boards.{CanCutAt, slots_at, TurnsStand};
ghost use Rattle.session_run.specs.Calls.{sends_of};
ghost use Rattle.session_run.specs.Plans.{CanRunPlan, FitsPlan, EachFits, HasRunPlan, HaveRunPlan, AppendsReplica};
ghost use Rattle.session_run.specs.Run.{IsPlaced, CanRun, HasRun};
ghost use Rattle.session_run.specs.Workers.{AsksAmong};

use crate::author_lines::{AuthorLines, lines_by_author, sends_in};
use crate::listing::{append_authors, append_sends};
use crate::together::run_together;
use author_desk::{Asked, Cuts};
use grove_edits::{Answer, Command, EditList};
use session_script::{AuthorList, Block, SendLine};
use shared_replica::{Journal, Machine};
use std::alloc::Global;
use std::marker::PhantomData;
use std::mem;
use std::sync::Wait;
use std::thread::{Threads, join};
use text_parts::NoMemory;

// What a block asks, of all replicas.
#[derive(Clone, Copy)]
pub struct Plan<'a> {
    pub sources: &'a [EditList],
    pub lines: &'a [AuthorLines],
    pub sends: &'a [SendLine],
    /// The number of the first `send` line.
    pub first_send: u32,
}

/// Runs a block on machines, of which each is a replica: each author with lines and each `send` line is a worker of its own, and they
/// are at work at once. The sources are the canonical lists of the replicas as the block opens, and the first `send` line of the block
/// has the given number. `first_calls` has for each declared author, in order, the number of its first line in this block, or of its
/// next line, among all its lines in the session, counted from 1. The gate says when an author's calls may start, and changes nothing
/// else. It is asked for the numbers that the authors' lines of this block have in the session, and for no others. The machines come back with their journals, in the order in which they were handed in; where memory runs out for a worker,
/// the others go on to their ends, and none comes back.
///
/// Each replica has cuts, made on the edges that it opens with, or on none: its authors raise the slots of those that they cut, each
/// through a part of the seat at the board, which comes back whole. Of a replica from which the block sends nothing any list will do as
/// its source.
pub fn run_block<R: Threads + Wait + Sync, M: Machine<Command = Command, Reply = Answer>, G: Asked>(
    rt: &R,
    alloc: Global,
    machines: Vec<M>,
    sources: &[EditList],
    authors: &AuthorList,
    block: &Block,
    first_send: u32,
    first_calls: &[u64],
    cuts: &mut Vec<Cuts<'_>>,
    gate: &G,
) -> Result<(Vec<M>, Vec<Journal<M>>), NoMemory>
    requires sources { length sources.now ≡ length machines.items }
    requires authors { AllByRecursion (IsPlaced (length machines.items)) authors.now }
    requires once { AllDiffer (author_numbers authors.now) }
    requires lines { AllByRecursion (CanRun authors.now (length machines.items)) block.now.lines }
    requires numbers { first_send + length (sends_of block.now.lines) < 2 ^ 32 }
    requires first_calls { length first_calls.now ≡ length authors.now }
    requires calls { AllByRecursion (λ first. first + length block.now.lines < 2 ^ 64) first_calls.now }
    requires asked { (author number : ℕ) → IsNumberIn authors.now first_calls.now block.now.lines author number → G.may_ask gate.now author number }
    requires cuts { length cuts.old.items ≡ length machines.items }
    requires boards { (replica : ℕ) (own : Cuts) → slice_get cuts.old.items replica ≡ Some own
        → CanCutAt (record { authors = authors.now; lines = block.now.lines; first_send = first_send; sources = sources.now; replica = replica }) own }
    ensures machines { IfOk result (λ ran. length ran.0.items ≡ length machines.items) }
    ensures journals { IfOk result (λ ran. length ran.1.items ≡ length machines.items) }
    ensures each { IfOk result (λ ran. (replica : ℕ) (first last : M) (journal : List (Entry M Command M.Effect Answer))
        → slice_get machines.items replica ≡ Some first → slice_get ran.0.items replica ≡ Some last → slice_get ran.1.items replica ≡ Some journal
        → HasRun M.after M.effect M.reply (record { authors = authors.now; lines = block.now.lines; first_send = first_send; sources = sources.now; replica = replica }) first journal last) }

    // The seats at the boards come back with what their authors raised, and each turn of an author stands together.
    ensures cuts { length cuts.new.items ≡ length cuts.old.items }
    ensures seats { (replica : ℕ) (own back : Cuts) → slice_get cuts.old.items replica ≡ Some own → slice_get cuts.new.items replica ≡ Some back → KeepsSeat own back }
    ensures raised { OnOk result ((replica : ℕ) (own back : Cuts) → slice_get cuts.old.items replica ≡ Some own → slice_get cuts.new.items replica ≡ Some back
        → Raises own back (slots_at (record { authors = authors.now; lines = block.now.lines; first_send = first_send; sources = sources.now; replica = replica }) (opening_edits own))) }
    ensures together { IfOk result (λ ran. (replica : ℕ) (own : Cuts) (journal : List (Entry M Command M.Effect Answer))
        → slice_get cuts.old.items replica ≡ Some own → slice_get ran.1.items replica ≡ Some journal
        → TurnsStand (record { authors = authors.now; lines = block.now.lines; first_send = first_send; sources = sources.now; replica = replica }) (opening_edits own) journal) }
{
    let lines = block.lines.as_slice();
    let by_author = lines_by_author(alloc, authors, first_calls, lines)?;
    let sends = sends_in(alloc, lines)?;
    let plan = Plan {
        sources,
        lines: &by_author,
        sends: &sends,
        first_send,
    };
    let journals = Vec::with_capacity(alloc, machines.len())?;
    let own = mem::replace(cuts, Vec::new(alloc));
    let (own, ran) = run_replicas(rt, alloc, machines, journals, own, &plan, gate);
    *cuts = own;
    ran
}

// Runs a plan on replicas, each in a thread of its own, and fills an empty list with their journals. The cuts come back in their order.
fn run_replicas<'a, R: Threads + Wait + Sync, M: Machine<Command = Command>, G: Asked>(
    rt: &R,
    alloc: Global,
    mut machines: Vec<M>,
    journals: Vec<Journal<M>>,
    mut cuts: Vec<Cuts<'a>>,
    plan: &Plan<'_>,
    gate: &G,
) -> (Vec<Cuts<'a>>, Result<(Vec<M>, Vec<Journal<M>>), NoMemory>)
    requires plan { CanRunPlan plan.now }
    requires no_journal { journals.items ≡ [] }
    requires cuts { length cuts.items ≡ length machines.items }
    requires fit { EachFits plan.now cuts.items }
    requires asked { AllByRecursion (AsksAmong (G.may_ask gate.now)) plan.now.lines.now }
    ensures run { HaveRunPlan M.after M.effect M.reply plan.now machines.items cuts.entry.items result.0.items result.1 }
    ensures room { vec_capacity result.0 ≡ vec_capacity cuts.entry }
{
    let Some(machine) = machines.pop() else {
        return (cuts, Ok((machines, journals)));
    };
    let Some(own) = cuts.pop() else {
        unreachable!()
    };
    let replica = machines.len() as u64;
    // A thread's result may name only types that what it is given names.
    let leaves = PhantomData::<Journal<M>>;
    let ((own, ran), (mut cuts, others)) = join(
        rt,
        move || -> (Cuts<'_>, Result<(M, Journal<M>), NoMemory>)
            requires { CanRunPlan plan.now × FitsPlan plan.now replica own × AllByRecursion (AsksAmong (G.may_ask gate.now)) plan.now.lines.now }
            ensures { HasRunPlan M.after M.effect M.reply plan.entry.now replica machine own.entry result.0 result.1 }
        {
            let _leaves = leaves;
            let mut own = own;
            let ran = run_at(rt, alloc, machine, &mut own, plan, replica, gate);
            (own, ran)
        },
        || -> (Vec<Cuts<'_>>, Result<(Vec<M>, Vec<Journal<M>>), NoMemory>)
            requires { CanRunPlan plan.now × (journals.items ≡ []) × (length cuts.items ≡ length machines.items) × EachFits plan.now cuts.items × AllByRecursion (AsksAmong (G.may_ask gate.now)) plan.now.lines.now }
            ensures { HaveRunPlan M.after M.effect M.reply plan.entry.now machines.items cuts.entry.items result.0.items result.1 × (vec_capacity result.0 ≡ vec_capacity cuts.entry) }
        { run_replicas(rt, alloc, machines, journals, cuts, plan, gate) },
    );
    cuts.push_reserved(own);
    (cuts, with_replica(others, ran))
}

// With what one replica more left.
fn with_replica<M: Machine<Command = Command>>(
    others: Result<(Vec<M>, Vec<Journal<M>>), NoMemory>,
    ran: Result<(M, Journal<M>), NoMemory>,
) -> Result<(Vec<M>, Vec<Journal<M>>), NoMemory>
    ensures { IfOk result (AppendsReplica others ran) }
{
    let (machine, journal) = ran?;
    let (mut machines, mut journals) = others?;
    machines.push(machine)?;
    journals.push(journal)?;
    Ok((machines, journals))
}

// Runs a plan on one replica.
fn run_at<R: Threads + Wait + Sync, M: Machine<Command = Command>, G: Asked>(
    rt: &R,
    alloc: Global,
    machine: M,
    cuts: &mut Cuts<'_>,
    plan: &Plan<'_>,
    replica: u64,
    gate: &G,
) -> Result<(M, Journal<M>), NoMemory>
    requires plan { CanRunPlan plan.now }
    requires fits { FitsPlan plan.now replica cuts.old }
    requires asked { AllByRecursion (AsksAmong (G.may_ask gate.now)) plan.now.lines.now }
    ensures { HasRunPlan M.after M.effect M.reply plan.now replica machine cuts.old cuts.new result }
{
    let mut workers = Vec::new(alloc);
    append_authors(plan.lines, replica, &mut workers)?;
    append_sends(
        alloc,
        plan.sources,
        plan.sends,
        plan.first_send,
        replica,
        &mut workers,
    )?;
    run_together(rt, alloc, machine, cuts, &workers, gate)
}
