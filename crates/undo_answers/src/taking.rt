//! What the replica of a session takes, with a counter that nobody reads.
ghost use Rattle.std.specs.Prelude.{◌≡◌, ◌<◌, IfOk, OnOk};
ghost use Rattle.grove_edits.specs.declared.actor.Actor.TheVariants.{Author};
ghost use Rattle.grove_edits.specs.declared.command.Command.TheVariants.{Act};
ghost use Rattle.replica_core.specs.Content.{with_taken};
ghost use Rattle.replica_core.specs.Step.{after, effect, reply};

use graph_words::Steps;
use grove_edits::{Action, Actor, Answer, Command, EditList};
use replica_core::Replica;
use shared_edits::SharedEdits;
use shared_replica::Machine;
use std::alloc::Global;
use std::marker::Brand;
use std::sync::ledger::{Blank, Ledger};
use text_parts::NoMemory;

/// The replica takes edits.
pub(crate) fn take(replica: &mut Replica, edits: &EditList) -> Result<(), NoMemory>
    ensures { OnOk result (replica.new ≡ with_taken edits.now replica.old) }
{
    take_counting::<Brand>(replica, edits, Blank::new(1))
}

fn take_counting<L: Ledger>(
    replica: &mut Replica,
    edits: &EditList,
    blank: Blank,
) -> Result<(), NoMemory>
    requires name { blank.name ≡ L.name }
    requires parts { blank.parts ≡ L.parts }
    requires some { 0 < blank.parts }
    ensures { OnOk result (replica.new ≡ with_taken edits.now replica.old) }
{
    let mut steps = Steps::<L>::new(blank);
    replica.apply_all(edits, &mut steps)?;
    Ok(())
}

/// An author's action on the replica: its edits, and what is answered.
pub(crate) fn act(
    alloc: Global,
    replica: &mut Replica,
    author: u32,
    action: Action,
) -> Result<(SharedEdits, Answer), NoMemory>
    ensures edits { IfOk result (λ acted. acted.0 ≡ effect replica.old (Author author) (Act action)) }
    ensures answer { IfOk result (λ acted. acted.1 ≡ reply replica.old (Author author) (Act action)) }
    ensures taken { OnOk result (replica.new ≡ after replica.old (Author author) (Act action)) }
{
    act_counting::<Brand>(alloc, replica, author, action, Blank::new(1))
}

fn act_counting<L: Ledger>(
    alloc: Global,
    replica: &mut Replica,
    author: u32,
    action: Action,
    blank: Blank,
) -> Result<(SharedEdits, Answer), NoMemory>
    requires name { blank.name ≡ L.name }
    requires parts { blank.parts ≡ L.parts }
    requires some { 0 < blank.parts }
    ensures edits { IfOk result (λ acted. acted.0 ≡ effect replica.old (Author author) (Act action)) }
    ensures answer { IfOk result (λ acted. acted.1 ≡ reply replica.old (Author author) (Act action)) }
    ensures taken { OnOk result (replica.new ≡ after replica.old (Author author) (Act action)) }
{
    let mut steps = Steps::<L>::new(blank);
    let command = Command::Act(action);
    Ok(replica.step(alloc, Actor::Author(author), &command, &mut steps)?)
}
