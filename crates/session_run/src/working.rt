//! The calls of one worker.
ghost use Rattle.std.specs.Prelude.{◌≡◌, ◌≤◌, List, length, None, IfOk, OnOk};
ghost use Rattle.grove_edits.specs.declared.edit.Edit.{Edit};
ghost use Rattle.grove_edits.specs.declared.command.Command.{Command};
ghost use Rattle.edit_text.specs.Text.{text_of};
ghost use Rattle.edit_stream.specs.Stream.{StreamState, Feeds};
ghost use Rattle.replica_exchange.specs.Send.{joined, edits_by_piece};
ghost use Rattle.shared_replica.specs.Passes.{Call};
ghost use Rattle.session_run.specs.Calls.{takes};
ghost use Rattle.author_desk.specs.Cuts.{CanRaise};
ghost use Rattle.author_desk.specs.Turns.{commands_of};
ghost use Rattle.session_run.specs.Workers.{actor_of, calls_of, CanWork, WorkerAsksAmong};
ghost use Rattle.session_run.specs.Passes.{Makes, HasWorked};

use crate::worker::Worker;
use author_desk::{Asked, Cuts, run_lines};
use grove_edits::{Bytes, Command, EditList};
use replica_exchange::{PieceList, TakeFault, Taker};
use shared_replica::{Machine, Pass, Shared};
use std::alloc::Global;
use std::sync::Wait;
use text_parts::NoMemory;

/// Lets a worker make its calls. It ends where memory runs out.
pub fn run_worker<R: Wait, M: Machine<Command = Command>, G: Asked>(
    rt: &R,
    alloc: Global,
    shared: &Shared<M>,
    pass: &mut Pass<M>,
    cuts: &mut Cuts<'_>,
    worker: &Worker<'_>,
    gate: &G,
) -> Result<(), NoMemory>
    requires shared { pass.old.shared ≡ shared.now }
    requires actor { pass.old.actor ≡ actor_of worker.now }
    requires calls { calls_of worker.now ≤ pass.old.calls }
    requires can_work { CanWork worker.now }
    requires cuts { CanRaise cuts.old }
    requires asked { WorkerAsksAmong (G.may_ask gate.now) worker.now }
    ensures { HasWorked worker.now pass.old pass.new cuts.old cuts.new result }
{
    match worker {
        Worker::Author(lines) => {
            run_lines(
                rt,
                alloc,
                shared,
                pass,
                cuts,
                lines.declared.author,
                lines.first_call,
                &lines.actions,
                gate,
            )?;
            Ok(())
        }
        Worker::Send { number: _, pieces } => run_pieces(rt, alloc, shared, pass, pieces),
    }
}

// Takes the pieces of the lines of some edits, and enters each with its edits.
fn run_pieces<R: Wait, M: Machine<Command = Command>>(
    rt: &R,
    alloc: Global,
    shared: &Shared<M>,
    pass: &mut Pass<M>,
    pieces: &PieceList,
) -> Result<(), NoMemory>
    requires shared { pass.old.shared ≡ shared.now }
    requires calls { length pieces.now ≤ pass.old.calls }
    requires edits { (edits : List Edit) × (joined pieces.now ≡ text_of edits) }
    ensures { (calls : List (Call Command M.Reply)) × Makes pass.old pass.new calls
        × OnOk result ((edits : List Edit) → joined pieces.now ≡ text_of edits → commands_of calls ≡ takes 1 pieces.now (edits_by_piece edits pieces.now)) }
{
    let mut taker = Taker::new(alloc);
    for index in 0..pieces.len() {
        let Some(piece) = pieces.get(index) else {
            unreachable!()
        };
        let bytes = piece.as_slice();
        let edits = take_good(&mut taker, bytes)?;
        let command = Command::Take {
            piece: index as u64 + 1,
            bytes: Bytes::of(Vec::from_slice(alloc, bytes)?),
            edits,
        };
        shared.act(rt, alloc, pass, command)?;
    }
    Ok(())
}

// The edits of a piece behind which no bad line was met.
fn take_good(taker: &mut Taker, piece: &[u8]) -> Result<EditList, NoMemory>
    requires { (edits : List Edit) (stream : StreamState) → Feeds taker.old.stream piece.now edits stream → stream.fault ≡ None }
    ensures { IfOk result (λ edits. Feeds taker.old.stream piece.now edits taker.new.stream) }
{
    match taker.take(piece) {
        Ok(edits) => Ok(edits),
        Err(TakeFault::NoMemory) => Err(NoMemory),
        Err(TakeFault::Malformed { .. }) => unreachable!(),
    }
}
