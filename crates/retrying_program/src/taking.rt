ghost use Rattle.std.specs.Prelude.{◌≡◌, ◌<◌, [], ◌∷◌, IfOk, OnOk, OnErr};
ghost use Rattle.replica_core.specs.Content.{no_edits, with_taken};

use crate::fault::Fault;
use crate::state::{state_text, vertices_of};
use graph_words::Steps;
use grove_edits::{Edit, Vertex};
use replica_core::Replica;
use std::alloc::Global;
use std::marker::Brand;
use std::sync::ledger::{Blank, Ledger};

/// The text of a replica's state once it has taken these edits.
pub(crate) fn state_after(alloc: Global, edits: &[Edit]) -> Result<Vec<u8>, Fault> {
    let vertices = vertices_of(alloc, edits)?;
    let replica = taken::<Brand>(alloc, edits, &vertices, Blank::new(1))?;
    state_text(alloc, &replica, &vertices)
}

// A replica that took some edits, whose vertices these are.
fn taken<L: Ledger>(
    alloc: Global,
    edits: &[Edit],
    vertices: &[Vertex],
    blank: Blank,
) -> Result<Replica, Fault>
    requires name { blank.name ≡ L.name }
    requires parts { blank.parts ≡ L.parts }
    requires some { 0 < blank.parts }
    ensures { IfOk result (λ replica. replica ≡ with_taken edits.now no_edits) }
{
    let mut replica = Replica::new(alloc)?;
    let mut steps = Steps::<L>::new(blank);
    for edit in edits {
        take(alloc, &mut replica, edit, vertices, &mut steps)?;
    }
    Ok(replica)
}

// Takes an edit. A call that found no memory has left all that was there, so it is made again.
fn take<L: Ledger>(
    alloc: Global,
    replica: &mut Replica,
    edit: &Edit,
    vertices: &[Vertex],
    steps: &mut Steps<L>,
) -> Result<(), Fault>
    ensures taken { OnOk result (replica.new ≡ with_taken (edit.now ∷ []) replica.old) }
    ensures unchanged { OnErr result (replica.new ≡ replica.old) }
{
    let before = state_text(alloc, replica, vertices)?;
    if replica.apply(edit, steps).is_ok() {
        return Ok(());
    }
    if state_text(alloc, replica, vertices)? != before {
        return Err(Fault::Changed);
    }
    replica.apply(edit, steps)?;
    Ok(())
}
