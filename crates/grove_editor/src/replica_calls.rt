//! What the replica of an editor takes, with a counter that nobody reads.
ghost use Rattle.std.specs.Prelude.{◌≡◌, ◌<◌, IfOk, OnOk, OnErr};
ghost use Rattle.grove_edits.specs.Graph.{graph};
ghost use Rattle.mark_incremental.specs.Changed.{AreChangedMarks};
ghost use Rattle.replica_core.specs.Content.{with_taken};

use graph_words::Steps;
use grove_edits::{EditList, Vertex};
use replica_core::Replica;
use std::marker::Brand;
use std::sync::ledger::{Blank, Ledger};
use text_parts::NoMemory;

/// The replica takes edits. It answers the vertices that marking judges otherwise then.
pub(crate) fn take(replica: &mut Replica, edits: &EditList) -> Result<Vec<Vertex>, NoMemory>
    ensures taken { OnOk result (replica.new ≡ with_taken edits.now replica.old) }
    ensures changed { IfOk result (λ changed. AreChangedMarks (graph replica.old.edits) (graph replica.new.edits) changed.items) }
    ensures unchanged { OnErr result (replica.new ≡ replica.old) }
{
    take_counting::<Brand>(replica, edits, Blank::new(1))
}

fn take_counting<L: Ledger>(
    replica: &mut Replica,
    edits: &EditList,
    blank: Blank,
) -> Result<Vec<Vertex>, NoMemory>
    requires name { blank.name ≡ L.name }
    requires parts { blank.parts ≡ L.parts }
    requires some { 0 < blank.parts }
    ensures taken { OnOk result (replica.new ≡ with_taken edits.now replica.old) }
    ensures changed { IfOk result (λ changed. AreChangedMarks (graph replica.old.edits) (graph replica.new.edits) changed.items) }
    ensures unchanged { OnErr result (replica.new ≡ replica.old) }
{
    let mut steps = Steps::<L>::new(blank);
    replica.apply_all_telling(edits, &mut steps)
}
