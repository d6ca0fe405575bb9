ghost use Rattle.std.specs.Prelude.{◌≡◌, false, IsOk, IfOk};
ghost use Rattle.type_core.specs.Typ.{is_consistent, IsAtom};
ghost use Rattle.type_core.specs.TypeTable.{IsTypeOf, type_at};
ghost use Rattle.type_core.specs.Heads.{IsPairingOf};
ghost use Rattle.type_core.specs.Pairings.{is_consistent_pairing, VerdictOf, AreTasks};

use crate::heads::{Heads, Pairing};
use crate::relations::Relation;
use crate::table::TypeTable;
use crate::type_id::TypeId;
use std::alloc::Global;
use text_parts::NoMemory;

// What is known of two types before their parts are asked.
#[derive(Clone, Copy)]
pub(crate) enum Verdict {
    // Whether they are consistent.
    Known(bool),
    // They are where the pairings of their first and of their second parts both are.
    Parts(Pairing, Pairing),
}

// What is still to be done to tell whether two types are consistent.
#[derive(Clone, Copy)]
pub(crate) enum Task {
    Ask(Pairing),
    // To keep what was found of these once all that was asked after them is answered.
    Keep(Pairing),
}

impl TypeTable {
    /// Whether two types are consistent. The table keeps what it found of these two and of some of their parts, so that it need not
    /// go over them all again. Memory is needed only where both are made of parts and differ.
    pub fn relate(&mut self, alloc: Global, a: TypeId, b: TypeId) -> Result<bool, NoMemory>
        requires left { IsTypeOf self.old a }
        requires right { IsTypeOf self.old b }
        ensures consistent { IfOk result (λ answer. answer ≡ is_consistent (type_at self.old a) (type_at self.old b)) }
        ensures sure_where_same { a ≡ b → IsOk result }
        ensures sure_without_parts { IsAtom (type_at self.old a) → IsAtom (type_at self.old b) → IsOk result }
        ensures unchanged { self.new ≡ self.old }
    {
        let pairing = Pairing { left: a, right: b };
        match self.heads(pairing) {
            Heads::Met(_) => Ok(true),
            Heads::Clash => Ok(false),
            Heads::Parts(..) => self.relate_parts(alloc, pairing),
        }
    }

    // The same, of two types of which it may have been found before.
    pub(crate) fn relate_parts(&mut self, alloc: Global, pairing: Pairing) -> Result<bool, NoMemory>
        requires { IsPairingOf self.old pairing }
        ensures consistent { IfOk result (λ answer. answer ≡ is_consistent_pairing self.old pairing) }
        ensures unchanged { self.new ≡ self.old }
    {
        match self.known_consistency(pairing) {
            Some(answer) => Ok(answer),
            None => self.settle(alloc, pairing),
        }
    }

    // Asks all parts of two types, as far as nothing is known of them.
    fn settle(&mut self, alloc: Global, pairing: Pairing) -> Result<bool, NoMemory>
        requires { IsPairingOf self.old pairing }
        ensures consistent { IfOk result (λ answer. answer ≡ is_consistent_pairing self.old pairing) }
        ensures unchanged { self.new ≡ self.old }
    {
        let mut tasks = Vec::new(alloc);
        tasks.push(Task::Keep(pairing))?;
        tasks.push(Task::Ask(pairing))?;
        while let Some(task) = tasks.pop() {
            match task {
                Task::Keep(kept) => self.keep(kept, Relation::Consistent)?,
                Task::Ask(asked) => match self.verdict(asked) {
                    Verdict::Known(true) => {}
                    Verdict::Known(false) => {
                        self.keep_apart(tasks.as_slice())?;
                        return Ok(false);
                    }
                    Verdict::Parts(first, second) => {
                        if self.is_landmark(asked.left) {
                            tasks.push(Task::Keep(asked))?;
                        }
                        tasks.push(Task::Ask(second))?;
                        tasks.push(Task::Ask(first))?;
                    }
                },
            }
        }
        Ok(true)
    }

    // Keeps what waited for two types that are not consistent: all these are not.
    fn keep_apart(&mut self, tasks: &[Task]) -> Result<(), NoMemory>
        requires { AreTasks self.old tasks.now false }
        ensures unchanged { self.new ≡ self.old }
    {
        for task in tasks {
            if let Task::Keep(kept) = task {
                self.keep(*kept, Relation::Apart)?;
            }
        }
        Ok(())
    }

    // What is known of two types at once, or was found before.
    fn verdict(&self, pairing: Pairing) -> Verdict
        requires { IsPairingOf self.now pairing }
        ensures { VerdictOf self.now pairing result }
    {
        match self.heads(pairing) {
            Heads::Met(_) => Verdict::Known(true),
            Heads::Clash => Verdict::Known(false),
            Heads::Parts(_, first, second) => {
                if self.is_landmark(pairing.left) {
                    if let Some(answer) = self.known_consistency(pairing) {
                        return Verdict::Known(answer);
                    }
                }
                Verdict::Parts(first, second)
            }
        }
    }
}
