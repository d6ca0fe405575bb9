ghost use Rattle.std.specs.Prelude.{◌≡◌, sum_by, IfSome};
ghost use Rattle.session_run.specs.Workers.{actor_of, calls_of};

use crate::author_lines::AuthorLines;
use grove_edits::Actor;
use replica_exchange::PieceList;

/// Who calls a replica in a block, beside the others.
#[derive(Debug, Drop)]
pub enum Worker<'a> {
    /// An author with actions.
    Author(&'a AuthorLines),
    /// A `send` line by its number in the session, with the pieces that it sends.
    Send { number: u32, pieces: PieceList },
}

impl<'a> Worker<'a> {
    pub fn actor(&self) -> Actor
        ensures { result ≡ actor_of self.now }
    {
        match self {
            Worker::Author(lines) => Actor::Author(lines.declared.author),
            Worker::Send { number, .. } => Actor::Send(*number),
        }
    }

    /// How many calls it makes.
    pub fn calls(&self) -> u64
        ensures { result ≡ calls_of self.now }
    {
        match self {
            Worker::Author(lines) => lines.actions.len() as u64,
            Worker::Send { pieces, .. } => pieces.len() as u64,
        }
    }
}

/// How many calls all make, if the number fits.
pub fn all_calls(workers: &[Worker<'_>]) -> Option<u64>
    ensures { IfSome result (λ calls. calls ≡ sum_by calls_of workers.now) }
{
    let mut calls: u64 = 0;
    for worker in workers {
        calls = calls.checked_add(worker.calls())?;
    }
    Some(calls)
}
