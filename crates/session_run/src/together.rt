//! Workers that call one machine, each in a thread of its own.
ghost use Rattle.std.specs.Prelude.{◌≡◌, ◌≤◌, ◌<◌, length, sum_by, IfOk, OnOk};
ghost use Rattle.std.specs.List.{AllByRecursion, flat_map};
ghost use Rattle.author_desk.specs.Cuts.{opening_edits, CanRaise, HasPartsFor, Raises, KeepsSeat};
ghost use Rattle.shared_replica.specs.Solos.{Replays};
ghost use Rattle.session_run.specs.Workers.{actor_of, calls_of, seats_of, slots_of, CanWork, HandsTo, WorkerAsksAmong};
ghost use Rattle.session_run.specs.Passes.{HasWorked, HaveWorked, StandsIn, IsJournalOf};

use crate::worker::{Worker, all_calls};
use crate::working::run_worker;
use author_desk::{Asked, Cuts};
use grove_edits::Command;
use shared_replica::{Journal, Machine, Pass, Shared};
use std::alloc::Global;
use std::mem;
use std::sync::Wait;
use std::thread::{Threads, join};
use text_parts::NoMemory;

/// Lets the workers call a machine at once, and gives it back with its journal. The authors among them raise what they cut by parts of
/// the seat of the cuts, which comes back whole.
pub fn run_together<R: Threads + Wait + Sync, M: Machine<Command = Command>, G: Asked>(
    rt: &R,
    alloc: Global,
    machine: M,
    cuts: &mut Cuts<'_>,
    workers: &[Worker<'_>],
    gate: &G,
) -> Result<(M, Journal<M>), NoMemory>
    requires can_work { AllByRecursion CanWork workers.now }
    requires cuts { CanRaise cuts.old }
    requires seats { HasPartsFor (sum_by seats_of workers.now) cuts.old }
    requires asked { AllByRecursion (WorkerAsksAmong (G.may_ask gate.now)) workers.now }
    ensures journal { IfOk result (λ ran. IsJournalOf workers.now ran.1) }
    ensures replays { IfOk result (λ ran. Replays M.after M.effect M.reply machine ran.1 ran.0) }
    ensures keeps_seat { KeepsSeat cuts.old cuts.new }
    ensures raised { OnOk result (Raises cuts.old cuts.new (flat_map (slots_of (opening_edits cuts.old)) workers.now)) }
    ensures stand { IfOk result (λ ran. AllByRecursion (StandsIn (opening_edits cuts.old) ran.1) workers.now) }
{
    let calls = all_calls(workers).ok_or(NoMemory)?;
    let parts = workers.len() as u64 + 1;
    let (shared, host) = Shared::new(alloc, machine, calls, parts)?;
    let own = mem::replace(cuts, Cuts::Empty);
    let (host, own, done) = run_workers(rt, alloc, &shared, host, own, workers, gate);
    *cuts = own;
    done?;
    Ok(shared.close(host))
}

// Lets each worker make its calls in a thread of its own, and gives the pass and the cuts back with what theirs had. Where memory runs
// out for one, the others go on.
fn run_workers<'a, R: Threads + Wait + Sync, M: Machine<Command = Command>, G: Asked>(
    rt: &R,
    alloc: Global,
    shared: &Shared<M>,
    mut pass: Pass<M>,
    mut cuts: Cuts<'a>,
    workers: &[Worker<'_>],
    gate: &G,
) -> (Pass<M>, Cuts<'a>, Result<(), NoMemory>)
    requires shared { pass.shared ≡ shared.now }
    requires parts { length workers.now < pass.parts }
    requires calls { sum_by calls_of workers.now ≤ pass.calls }
    requires can_work { AllByRecursion CanWork workers.now }
    requires cuts { CanRaise cuts }
    requires seats { HasPartsFor (sum_by seats_of workers.now) cuts }
    requires asked { AllByRecursion (WorkerAsksAmong (G.may_ask gate.now)) workers.now }
    ensures { HaveWorked workers.now pass result.0 cuts.entry result.1 result.2 }
{
    let Some((last, front)) = workers.split_last() else {
        return (pass, cuts, Ok(()));
    };
    let worker = shared.split(&mut pass, last.actor(), last.calls());
    let own = split_for(&mut cuts, last);
    let ((worker, own, done), (mut pass, mut cuts, others)) = join(
        rt,
        || -> (Pass<M>, Cuts<'_>, Result<(), NoMemory>)
            requires { (worker.shared ≡ shared.now) × (worker.actor ≡ actor_of last.now) × (calls_of last.now ≤ worker.calls) × CanWork last.now × CanRaise own × WorkerAsksAmong (G.may_ask gate.now) last.now }
            ensures { HasWorked last.entry.now worker result.0 own.entry result.1 result.2 }
        {
            let mut worker = worker;
            let mut own = own;
            let done = run_worker(rt, alloc, shared, &mut worker, &mut own, last, gate);
            (worker, own, done)
        },
        || -> (Pass<M>, Cuts<'_>, Result<(), NoMemory>)
            requires { (pass.shared ≡ shared.now) × (length front.now < pass.parts) × (sum_by calls_of front.now ≤ pass.calls) × AllByRecursion CanWork front.now × CanRaise cuts × HasPartsFor (sum_by seats_of front.now) cuts × AllByRecursion (WorkerAsksAmong (G.may_ask gate.now)) front.now }
            ensures { HaveWorked front.entry.now pass result.0 cuts.entry result.1 result.2 }
        { run_workers(rt, alloc, shared, pass, cuts, front, gate) },
    );
    shared.join(&mut pass, worker);
    cuts.join(own);
    (pass, cuts, done.and(others))
}

// What the worker's cuts are made on.
fn split_for<'a>(cuts: &mut Cuts<'a>, worker: &Worker<'_>) -> Cuts<'a>
    requires cuts { CanRaise cuts.old }
    requires seats { HasPartsFor (seats_of worker.now) cuts.old }
    ensures { HandsTo worker.now cuts.old cuts.new result }
{
    match worker {
        Worker::Author(_) => cuts.split(),
        Worker::Send { .. } => Cuts::Empty,
    }
}
