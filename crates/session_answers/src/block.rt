//! Runs a block of a session.
ghost use Rattle.std.specs.Prelude.{◌≡◌, ℕ, ◌+◌, ◌<◌, ◌^◌, length, map, IfOk};
ghost use Rattle.std.specs.List.{AllByRecursion, count_by};
ghost use Rattle.session_script.specs.Session.{IsSession, is_send};
ghost use Rattle.grove_edits.specs.Graph.{Ascends};
ghost use Rattle.session_run.specs.Asked.{IsNumberIn};
ghost use Rattle.session_run.specs.Run.{CanRun};
ghost use Rattle.session_answers.specs.Boards.{AreHeld, states_in};
ghost use Rattle.session_answers.specs.Opened.{all_listed};
ghost use Rattle.session_answers.specs.Running.{sources_of, HaveRun};

use crate::boards::{boards_of, close_all, cuts_on, seats_of};
use author_desk::Asked;
use edge_lattice::State;
use grove_edits::EditList;
use replica_core::Replica;
use session_run::run_block;
use session_script::{Block, Session};
use shared_replica::Journal;
use std::alloc::Global;
use std::sync::Wait;
use std::thread::Threads;
use text_parts::NoMemory;

/// Runs a block on replicas that have opened it, of which it asked these lists. Their boards last as long as the block. Answers the
/// replicas, their journals, and what their boards held as they were closed behind the block.
pub(crate) fn run_on_boards<R: Threads + Wait + Sync, G: Asked>(
    rt: &R,
    alloc: Global,
    replicas: Vec<Replica>,
    lists: &[EditList],
    session: &Session,
    block: &Block,
    first_send: u32,
    first_calls: &[u64],
    gate: &G,
) -> Result<(Vec<Replica>, Vec<Journal<Replica>>, Vec<Option<Vec<State>>>), NoMemory>
    requires session { IsSession session.now }
    requires lines { AllByRecursion (CanRun session.now.authors (length session.now.replicas)) block.now.lines }
    requires replicas { length replicas.items ≡ length session.now.replicas }
    requires lists { lists.now ≡ all_listed session.now.authors block.now.lines 0 replicas.items }
    requires ascend { AllByRecursion Ascends lists.now }
    requires sends { first_send + count_by is_send block.now.lines < 2 ^ 32 }
    requires first_calls { length first_calls.now ≡ length session.now.authors }
    requires calls { AllByRecursion (λ first. first + length block.now.lines < 2 ^ 64) first_calls.now }
    requires asked { (author number : ℕ) → IsNumberIn session.now.authors first_calls.now block.now.lines author number → G.may_ask gate.now author number }
    ensures ran { IfOk result (λ ran. HaveRun session.now block.now first_send replicas.items ran.1.items ran.0.items) }
    ensures closed { IfOk result (λ ran. AreHeld session.now block.now first_send (sources_of replicas.items) (map states_in ran.2.items)) }
{
    let (boards, seats) = boards_of(alloc, lists, &session.authors, block.lines.as_slice())?;
    let mut cuts = cuts_on(alloc, lists, &boards, seats)?;
    let (replicas, journals) = run_block(
        rt,
        alloc,
        replicas,
        lists,
        &session.authors,
        block,
        first_send,
        first_calls,
        &mut cuts,
        gate,
    )?;
    let whole = seats_of(alloc, cuts)?;
    let held = close_all(alloc, boards, whole)?;
    Ok((replicas, journals, held))
}
