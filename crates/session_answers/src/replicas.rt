//! What is asked of all replicas of a session, one after the other.
ghost use Rattle.std.specs.Prelude.{◌≡◌, ◌+◌, ◌<◌, [], ◌∷◌, ◌++◌, replicate, IfOk, OnOk};
ghost use Rattle.replica_core.specs.Content.{no_edits, with_taken};
ghost use Rattle.session_answers.specs.BlockJournals.{block_journals};

use graph_words::Steps;
use grove_edits::Edit;
use replica_core::Replica;
use seeded_hash::HashSeed;
use session_report::{BlockJournal, JournalList};
use shared_replica::Journal;
use std::alloc::Global;
use std::marker::Brand;
use std::sync::ledger::{Blank, Ledger};
use text_parts::NoMemory;

/// So many replicas that have taken nothing, which hash under a seed.
pub(crate) fn empty_replicas(
    alloc: Global,
    seed: HashSeed,
    count: usize,
) -> Result<Vec<Replica>, NoMemory>
    ensures { IfOk result (λ replicas. replicas.items ≡ replicate count no_edits) }
{
    let mut replicas = Vec::new(alloc);
    for _made in 0..count {
        replicas.push(Replica::with_seed(alloc, seed)?)?;
    }
    Ok(replicas)
}

pub(crate) fn apply(alloc: Global, replica: &mut Replica, edit: &Edit) -> Result<(), NoMemory>
    ensures { OnOk result (replica.new ≡ with_taken (edit.now ∷ []) replica.old) }
{
    apply_counting::<Brand>(alloc, replica, edit, Blank::new(1))
}

// With a counter that nobody reads.
fn apply_counting<L: Ledger>(
    alloc: Global,
    replica: &mut Replica,
    edit: &Edit,
    blank: Blank,
) -> Result<(), NoMemory>
    requires name { blank.name ≡ L.name }
    requires parts { blank.parts ≡ L.parts }
    requires some { 0 < blank.parts }
    ensures { OnOk result (replica.new ≡ with_taken (edit.now ∷ []) replica.old) }
{
    let mut steps = Steps::<L>::new(blank);
    replica.apply(edit, &mut steps)?;
    Ok(())
}

/// Keeps the journals of a block, one for each replica.
pub(crate) fn append_journals(
    block: u64,
    made: Vec<Journal<Replica>>,
    journals: &mut JournalList<Replica>,
) -> Result<(), NoMemory>
    ensures { OnOk result (journals.new ≡ journals.old ++ block_journals block 1 made.items) }
{
    let mut replica = 1;
    for journal in made {
        journals.push(BlockJournal {
            block,
            replica,
            journal,
        })?;
        replica += 1;
    }
    Ok(())
}
