ghost use Rattle.std.specs.Prelude.{◌≡◌, ◌≤◌, length, IfOk};
ghost use Rattle.shared_replica.specs.Solos.{Replays};
ghost use Rattle.edit_runs.specs.Runs.{AreCut, AreEntriesInRuns};

use crate::cutting::cut;
use crate::piece::Piece;
use crate::stretch::Stretch;
use live_relay::{Items, run_relay};
use shared_edits::SharedEdits;
use shared_replica::{Journal, Machine};
use std::alloc::Global;
use std::sync::Wait;
use std::thread::Threads;
use text_parts::NoMemory;

/// Lets the edits of each list flow to a machine in runs, through a relay with room for so many runs, and gives the machine back with its
/// journal. List number `i`, from 1, is sent by the actor `Send(i)`.
pub fn relay_in_runs<R: Threads + Wait + Sync, M: Machine<Command = Piece>>(
    rt: &R,
    alloc: Global,
    machine: M,
    lists: &[SharedEdits],
    room: usize,
) -> Result<(M, Journal<M>), NoMemory>
    requires lists { (1 ≤ length lists.now) × (length lists.now ≤ 8) }
    requires room { (1 ≤ room) × (room ≤ 4096) }
    ensures entries { IfOk result (λ ran. AreEntriesInRuns lists.now ran.1) }
    ensures replays { IfOk result (λ ran. Replays M.after M.effect M.reply machine ran.1 ran.0) }
{
    let cuts = cut_all(alloc, lists)?;
    Ok(run_relay(rt, alloc, machine, &cuts, room)?)
}

fn cut_all<'t>(alloc: Global, lists: &'t [SharedEdits]) -> Result<Vec<Items<Stretch<'t>>>, NoMemory>
    ensures { IfOk result (λ cuts. AreCut lists.now cuts.items) }
{
    let mut cuts = Vec::with_capacity(alloc, lists.len())?;
    for list in lists {
        cuts.push_reserved(cut(alloc, list)?);
    }
    Ok(cuts)
}
