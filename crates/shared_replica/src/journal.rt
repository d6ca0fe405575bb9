ghost use Rattle.std.specs.Prelude.{◌≡◌, ◌≤◌, length, slice_get, MatchOption, Some};

use crate::machine::Machine;
use grove_edits::Actor;
use std::marker::Model;

/// A command that a machine took, with who gave it, what it did and what was answered.
#[derive(Drop)]
pub struct Entry<M: Machine> {
    pub actor: Actor,
    pub command: M::Command,
    pub effect: M::Effect,
    pub reply: M::Reply,
}

/// The entries of a machine, in the order in which it took them. Contracts see the list.
#[derive(Drop)]
pub struct Journal<M: Machine> {
    pub(crate) entries: Vec<Entry<M>>,
}

impl<M: Machine> Model for Journal<M> {
    ghost use Rattle.std.specs.Prelude.{List};
    ghost use Rattle.shared_replica.specs.declared.journal.Entry.{Entry};

    ghost Value = { List (Entry M M.Command M.Effect M.Reply) };

    ghost view = { λ journal. journal.entries.items };
}

impl<M: Machine> Journal<M> {
    /// How many entries there are.
    pub fn len(&self) -> usize
        ensures length { result ≡ length self.now }
    {
        self.entries.len()
    }

    /// The entry at an index, if it is not past the end.
    pub fn get(&self, index: usize) -> Option<&Entry<M>>
        ensures entry { MatchOption result (length self.now ≤ index) (λ entry. slice_get self.now index ≡ Some entry.now) }
    {
        self.entries.get(index)
    }

    pub fn as_slice(&self) -> &[Entry<M>]
        ensures entries { result.now ≡ self.now }
    {
        &self.entries
    }
}
