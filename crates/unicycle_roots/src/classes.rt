ghost use Rattle.std.specs.Prelude.{◌≡◌, ◌+◌, ◌*◌, ◌≤◌, length};
ghost use Rattle.graph_words.specs.Walk.{walk};
ghost use Rattle.graph_words.specs.Class.{class};

use crate::cycle_root::is_cycle_root;
use graph_words::{Class, Few, ParentOf, Steps};
use grove_edits::Vertex;
use std::sync::ledger::Ledger;

/// The class of a vertex. It takes no memory, and a few ticks for each vertex on the walk up from it.
pub fn class_of<P: ParentOf, L: Ledger>(vertex: &Vertex, parents: &P, steps: &mut Steps<L>) -> Class
    ensures class { result ≡ class (P.live parents.now) vertex.now }
    ensures ticks { steps.new ≤ steps.old + 6 * length (walk (P.live parents.now) vertex.now) + 2 }
{
    match parents.few(vertex, steps) {
        Few::Zero => Class::NoParent,
        Few::More(_, _) => Class::Multi,
        Few::One(_) => {
            if is_cycle_root(vertex, parents, steps) {
                Class::Cycle
            } else {
                Class::Inner
            }
        }
    }
}
