ghost use Rattle.std.specs.Prelude.{◌≡◌, ◌<◌, IfOk};
ghost use Rattle.grove_edits.specs.Graph.{Ascends};

use crate::random::Random;
use crate::world::World;
use edit_table::EditTable;
use graph_words::Steps;
use grove_answers::print_text;
use grove_edits::{Edit, EditKind, NoMemory};
use replica_core::Replica;
use seeded_hash::HashSeed;
use std::alloc::Global;
use std::marker::Brand;
use std::sync::ledger::{Blank, Ledger};

/// How many edits were taken, how many of them were deletions, and whether all was the same after each.
#[derive(Clone, Copy)]
pub(crate) struct Compared {
    pub(crate) taken: u64,
    pub(crate) deletions: u64,
    pub(crate) same: bool,
}

const NOTHING: Compared = Compared {
    taken: 0,
    deletions: 0,
    same: true,
};

/// Compares after each edit of so many rounds, until something differs.
pub(crate) fn compare_rounds(
    alloc: Global,
    rounds: u64,
    edits: u64,
    mut random: Random,
) -> Result<Compared, NoMemory> {
    let mut compared = NOTHING;
    for _ in 0..rounds {
        compare_round::<Brand>(alloc, edits, &mut random, &mut compared, Blank::new(1))?;
        if !compared.same {
            break;
        }
    }
    Ok(compared)
}

// Compares after each edit of a round, until something differs.
fn compare_round<L: Ledger>(
    alloc: Global,
    edits: u64,
    random: &mut Random,
    compared: &mut Compared,
    blank: Blank,
) -> Result<(), NoMemory>
    requires name { blank.name ≡ L.name }
    requires parts { blank.parts ≡ L.parts }
    requires some { 0 < blank.parts }
{
    let mut world = World::new(alloc, random)?;
    let mut replica = Replica::new(alloc)?;
    let mut steps = Steps::<L>::new(blank);
    take_edits(
        alloc,
        edits,
        random,
        &mut world,
        &mut replica,
        compared,
        &mut steps,
    )
}

// Lets a replica take so many edits of a world, and compares after each, until something differs.
fn take_edits<L: Ledger>(
    alloc: Global,
    edits: u64,
    random: &mut Random,
    world: &mut World,
    replica: &mut Replica,
    compared: &mut Compared,
    steps: &mut Steps<L>,
) -> Result<(), NoMemory> {
    for number in 0..edits {
        if let Some(edit) = world.edit(random, number.saturating_add(1000))? {
            take(alloc, replica, &edit, compared, steps)?;
        }
        if !compared.same {
            break;
        }
    }
    Ok(())
}

// Lets a replica take an edit, and compares.
fn take<L: Ledger>(
    alloc: Global,
    replica: &mut Replica,
    edit: &Edit,
    compared: &mut Compared,
    steps: &mut Steps<L>,
) -> Result<(), NoMemory> {
    replica.apply(edit, steps)?;
    compared.taken = compared.taken.saturating_add(1);
    if edit.kind() == EditKind::Delete {
        compared.deletions = compared.deletions.saturating_add(1);
    }
    compared.same = prints_as_marked_anew(alloc, replica)?;
    Ok(())
}

// Whether a replica prints what a table of its canonical list prints.
fn prints_as_marked_anew(alloc: Global, replica: &Replica) -> Result<bool, NoMemory> {
    let own = own_text(alloc, replica)?;
    let anew = marked_anew(alloc, replica)?;
    Ok(own == anew)
}

fn own_text(alloc: Global, replica: &Replica) -> Result<Vec<u8>, NoMemory> {
    let mut text = Vec::new(alloc);
    replica.print(alloc, &mut text)?;
    Ok(text)
}

fn marked_anew(alloc: Global, replica: &Replica) -> Result<Vec<u8>, NoMemory> {
    let table = table_of(alloc, replica)?;
    print_text(alloc, table, HashSeed::FIXED)
}

fn table_of(alloc: Global, replica: &Replica) -> Result<EditTable, NoMemory>
    ensures { IfOk result (λ table. Ascends table.edits) }
{
    let edits = replica.in_order(alloc)?;
    EditTable::of_list(alloc, &edits, HashSeed::FIXED)
}
