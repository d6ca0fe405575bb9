ghost use Rattle.std.specs.Prelude.{◌≡◌, ◌+◌, ◌<◌, ◌≤◌, ◌^◌, IfOk, IfErr};
ghost use Rattle.graph_words.specs.Names.{IsGreatest, IsNameOf};
ghost use Rattle.user_actions.specs.Faults.{last_counter};
ghost use Rattle.user_actions.specs.Names.{new_name};
ghost use Rattle.user_actions.specs.PlainEdits.{new_vertex};
ghost use Rattle.user_actions.specs.Spent.{IsSpent};

use crate::plan_view::PlanView;
use grove_edits::{ActFault, Vertex};
use grove_names::Name;
use grove_sorts::Ctor;

/// The new names of an author, which follow the greatest counter that the author gave.
#[derive(Clone, Copy, Debug)]
pub(crate) struct NewNames {
    pub(crate) author: u32,
    pub(crate) greatest: u64,
}

impl NewNames {
    /// The new name with a number, of which the first is 1.
    pub(crate) fn name(&self, number: u64) -> Name
        requires { self.now.greatest + number ≤ last_counter }
        ensures { result ≡ new_name self.now.author self.now.greatest number }
    {
        Name {
            author: self.author,
            counter: self.greatest + number,
        }
    }

    /// The new vertex, which has the first new name.
    pub(crate) fn vertex(&self, ctor: Ctor) -> Vertex
        requires { self.now.greatest + 1 ≤ last_counter }
        ensures { result ≡ new_vertex self.now.author self.now.greatest ctor }
    {
        Vertex {
            name: self.name(1),
            ctor,
        }
    }
}

/// The author's new names, or that there are not so many left.
pub(crate) fn new_names<V: PlanView>(
    view: &V,
    author: u32,
    count: u64,
) -> Result<NewNames, ActFault>
    ensures author { IfOk result (λ names. names.author ≡ author) }
    ensures greatest { IfOk result (λ names. IsGreatest (IsNameOf (V.states view.now)) author names.greatest) }
    ensures fits { IfOk result (λ names. names.greatest + count ≤ last_counter) }
    ensures spent { IfErr result (λ fault. IsSpent (V.states view.now) author count fault) }
{
    let greatest = view.greatest(author);
    match greatest.checked_add(count) {
        Some(_last) => Ok(NewNames { author, greatest }),
        None => Err(ActFault::NamesSpent { greatest }),
    }
}
