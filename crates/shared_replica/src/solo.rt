//! A machine with its journal, on one thread.
ghost use Rattle.std.specs.Prelude.{◌≡◌, ◌+◌, ◌<◌, ◌≤◌, List, [], ◌++◌, length, IfOk, IfErr, OnOk, OnErr};
ghost use Rattle.shared_replica.specs.Solos.{with_step, with_steps, Replays};

use crate::journal::{Entry, Journal};
use crate::machine::Machine;
use graph_words::Steps;
use grove_edits::Actor;
use std::alloc::Global;
use std::marker::{Brand, Model};
use std::sync::ledger::{Blank, Ledger};
use text_parts::NoMemory;
use turn_lock::NoMemoryWith;

/// A machine with the journal of its commands. Contracts see it as a `Journaled`.
#[derive(Drop)]
pub struct Solo<M: Machine> {
    machine: M,
    pub(crate) entries: Vec<Entry<M>>,
    calls: u64,
}

impl<M: Machine> Model for Solo<M> {
    ghost use Rattle.shared_replica.specs.Solos.{Journaled};

    ghost Value = { Journaled M M.Command M.Effect M.Reply };

    ghost use Rattle.std.specs.Prelude.{◌≤◌, length, vec_capacity};

    ghost view = { λ solo. record { machine = solo.machine; journal = solo.entries.items; calls = solo.calls } };

    ghost invariant = { λ solo. (length solo.entries.items ≤ solo.calls) × (solo.calls ≤ vec_capacity solo.entries) };
}

// A step, with a counter that nobody reads.
fn step_counting<M: Machine, L: Ledger>(
    alloc: Global,
    machine: &mut M,
    actor: Actor,
    command: &M::Command,
    blank: Blank,
) -> Result<(M::Effect, M::Reply), NoMemory>
    requires name { blank.name ≡ L.name }
    requires parts { blank.parts ≡ L.parts }
    requires some { 0 < blank.parts }
    ensures answer { IfOk result (λ made. (made.0 ≡ M.effect machine.old actor command.now) × (made.1 ≡ M.reply machine.old actor command.now)) }
    ensures stepped { OnOk result (machine.new ≡ M.after machine.old actor command.now) }
    ensures unchanged { OnErr result (machine.new ≡ machine.old) }
{
    let mut steps = Steps::<L>::new(blank);
    machine.step(alloc, actor, command, &mut steps)
}

fn step<M: Machine>(
    alloc: Global,
    machine: &mut M,
    actor: Actor,
    command: &M::Command,
) -> Result<(M::Effect, M::Reply), NoMemory>
    ensures answer { IfOk result (λ made. (made.0 ≡ M.effect machine.old actor command.now) × (made.1 ≡ M.reply machine.old actor command.now)) }
    ensures stepped { OnOk result (machine.new ≡ M.after machine.old actor command.now) }
    ensures unchanged { OnErr result (machine.new ≡ machine.old) }
{
    step_counting::<M, Brand>(alloc, machine, actor, command, Blank::new(1))
}

impl<M: Machine> Solo<M> {
    /// A machine with an empty journal, which has room for so many entries. The empty journal leads from the machine to itself.
    pub fn new(alloc: Global, machine: M, calls: u64) -> Result<Solo<M>, NoMemoryWith<M>>
        ensures made { IfOk result (λ solo. solo ≡ record { machine = machine; journal = []; calls = calls }) }
        ensures replays { IfOk result (λ solo. Replays M.after M.effect M.reply machine solo.journal solo.machine) }
        ensures back { IfErr result (λ refused. refused.state ≡ machine) }
    {
        let Ok(entries) = Vec::with_capacity(alloc, calls as usize) else {
            return Err(NoMemoryWith { state: machine });
        };
        Ok(Solo {
            machine,
            entries,
            calls,
        })
    }

    /// Lets the machine take a command, and enters it. From whatever machine the journal led to the present one, it leads to the new one.
    pub fn act(
        &mut self,
        alloc: Global,
        actor: Actor,
        command: M::Command,
    ) -> Result<M::Reply, NoMemoryWith<M::Command>>
        requires room { length self.old.journal < self.old.calls }
        ensures reply { IfOk result (λ reply. reply ≡ M.reply self.old.machine actor command) }
        ensures entered { OnOk result (self.new ≡ with_step M.after M.effect M.reply self.old actor command) }
        ensures replays { (first : M) → Replays M.after M.effect M.reply first self.old.journal self.old.machine → Replays M.after M.effect M.reply first self.new.journal self.new.machine }
        ensures unchanged { OnErr result (self.new ≡ self.old) }
        ensures back { IfErr result (λ refused. refused.state ≡ command) }
    {
        match step(alloc, &mut self.machine, actor, &command) {
            Ok((effect, reply)) => {
                self.entries.push_reserved(Entry {
                    actor,
                    command,
                    effect,
                    reply,
                });
                Ok(reply)
            }
            Err(NoMemory) => Err(NoMemoryWith { state: command }),
        }
    }

    /// Lets the machine take all commands in order, and enters each. Where there is no memory for one, it and those behind it come back.
    pub fn act_all(
        &mut self,
        alloc: Global,
        actor: Actor,
        mut commands: Vec<M::Command>,
    ) -> Result<(), NoMemoryWith<Vec<M::Command>>>
        requires room { length self.old.journal + length commands.items ≤ self.old.calls }
        ensures entered { OnOk result (self.new ≡ with_steps M.after M.effect M.reply self.old actor commands.items) }
        ensures rest { IfErr result (λ refused. (taken : List M.Command) × (taken ++ refused.state.items ≡ commands.items) × (self.new ≡ with_steps M.after M.effect M.reply self.old actor taken)) }
        ensures some_back { IfErr result (λ refused. 1 ≤ length refused.state.items) }
        ensures replays { (first : M) → Replays M.after M.effect M.reply first self.old.journal self.old.machine → Replays M.after M.effect M.reply first self.new.journal self.new.machine }
    {
        commands.reverse();
        while let Some(command) = commands.pop() {
            if let Err(refused) = self.act(alloc, actor, command) {
                commands.push_reserved(refused.state);
                commands.reverse();
                return Err(NoMemoryWith { state: commands });
            }
        }
        Ok(())
    }

    /// The machine and the journal.
    pub fn close(self) -> (M, Journal<M>)
        ensures machine { result.0 ≡ self.machine }
        ensures journal { result.1 ≡ self.journal }
    {
        let Solo {
            machine,
            entries,
            calls: _,
        } = self;
        (machine, Journal { entries })
    }
}
