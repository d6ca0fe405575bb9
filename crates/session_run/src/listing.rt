//! Who is at work on one replica in a block.
ghost use Rattle.std.specs.Prelude.{◌≡◌, ◌+◌, ◌^◌, ◌<◌, List, ◌++◌, length, OnOk};
ghost use Rattle.std.specs.List.{AllByRecursion};
ghost use Rattle.session_run.specs.declared.worker.Worker.{Worker};
ghost use Rattle.session_run.specs.Workers.{AreForAuthors, AddsAuthor, AreForSends, AddsSend};
ghost use Rattle.session_run.specs.Run.{CanSend};

use crate::author_lines::AuthorLines;
use crate::worker::Worker;
use grove_edits::EditList;
use replica_exchange::packets;
use session_script::SendLine;
use std::alloc::Global;
use text_parts::NoMemory;

/// Appends a worker for each of the replica's authors who has actions.
pub fn append_authors<'a>(
    all: &'a [AuthorLines],
    replica: u64,
    workers: &mut Vec<Worker<'a>>,
) -> Result<(), NoMemory>
    ensures { OnOk result ((more : List Worker) × AreForAuthors replica all.now more × (workers.new.items ≡ workers.old.items ++ more)) }
{
    for lines in all {
        append_author(lines, replica, workers)?;
    }
    Ok(())
}

// Appends a worker for the author, if it acts on the replica and has actions.
fn append_author<'a>(
    lines: &'a AuthorLines,
    replica: u64,
    workers: &mut Vec<Worker<'a>>,
) -> Result<(), NoMemory>
    ensures { OnOk result (AddsAuthor replica lines.now workers.old.items workers.new.items) }
{
    if lines.declared.replica != replica {
        return Ok(());
    }
    if lines.actions.is_empty() {
        return Ok(());
    }
    workers.push(Worker::Author(lines))?;
    Ok(())
}

/// Appends a worker for each of the `send` lines to the replica, of which the first of all has the number.
pub fn append_sends(
    alloc: Global,
    sources: &[EditList],
    sends: &[SendLine],
    first_send: u32,
    replica: u64,
    workers: &mut Vec<Worker<'_>>,
) -> Result<(), NoMemory>
    requires sends { AllByRecursion (CanSend (length sources.now)) sends.now }
    requires numbers { first_send + length sends.now < 2 ^ 32 }
    ensures { OnOk result ((more : List Worker) × AreForSends sources.now replica first_send sends.now more × (workers.new.items ≡ workers.old.items ++ more)) }
{
    let mut number = first_send;
    for send in sends {
        append_send(alloc, sources, send, number, replica, workers)?;
        number += 1;
    }
    Ok(())
}

// Appends a worker for the `send` line with this number, if it goes to the replica.
fn append_send(
    alloc: Global,
    sources: &[EditList],
    send: &SendLine,
    number: u32,
    replica: u64,
    workers: &mut Vec<Worker<'_>>,
) -> Result<(), NoMemory>
    requires { CanSend (length sources.now) send.now }
    ensures { OnOk result (AddsSend sources.now replica number send.now workers.old.items workers.new.items) }
{
    if send.to != replica {
        return Ok(());
    }
    let pieces = packets(alloc, &sources[send.from as usize], send)?;
    workers.push(Worker::Send { number, pieces })?;
    Ok(())
}
