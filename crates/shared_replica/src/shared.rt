//! A machine with its journal, behind turns that threads take.
ghost use Rattle.std.specs.Prelude.{◌≡◌, ℕ, ◌+◌, ◌*◌, ◌≤◌, List, [], ◌∷◌, ◌++◌, length, IfOk, IfErr, OnOk, OnErr};
ghost use mathlib.Core.List.{IsPrefix};
ghost use Rattle.grove_edits.specs.declared.actor.Actor.{Actor};
ghost use Rattle.shared_replica.specs.Replays.{machine_after, AreSteps};
ghost use Rattle.shared_replica.specs.Solos.{Replays};
ghost use Rattle.shared_replica.specs.Passes.{first_pass, kept_pass, given_pass, joined_pass, Enters, EntersAll, Call, all_made, calls_by, AreNamed, StandsOnce};
ghost use Rattle.shared_replica.specs.Placed.{StandIn, tag_of as tag_by};

use crate::journal::Journal;
use crate::machine::Machine;
use crate::pass::Pass;
use crate::solo::Solo;
use grove_edits::Actor;
use std::alloc::Global;
use std::marker::Model;
use std::sync::Wait;
use turn_lock::{NoMemoryWith, Turn};

/// A machine that threads share, one turn at a time. Contracts see what it was made with.
#[derive(Drop)]
pub struct Shared<M: Machine> {
    turn: Turn<Solo<M>>,
}

impl<M: Machine> Model for Shared<M> {
    ghost use Rattle.std.specs.Prelude.{◌≡◌};
    ghost use Rattle.turn_lock.specs.Seats.{TurnOf};
    ghost use Rattle.shared_replica.specs.declared.kept.Opening.{Opening};

    ghost Value = { TurnOf (Opening M) };

    ghost view = { λ shared. shared.turn };

    ghost invariant = { λ shared. shared.turn.first.calls ≡ shared.turn.calls };
}

impl<M: Machine> Shared<M> {
    /// Shares a machine, with room in its journal for so many calls. The pass is the host's, and has all the calls and all the parts.
    pub fn new(
        alloc: Global,
        machine: M,
        calls: u64,
        parts: u64,
    ) -> Result<(Shared<M>, Pass<M>), NoMemoryWith<M>>
        requires some_part { 1 ≤ parts }
        ensures shared { IfOk result (λ made. (made.0.calls ≡ calls) × (made.0.parts ≡ parts) × (made.0.first.machine ≡ machine)) }
        ensures pass { IfOk result (λ made. made.1 ≡ first_pass made.0) }
        ensures back { IfErr result (λ refused. refused.state ≡ machine) }
    {
        let solo = Solo::new(alloc, machine, calls)?;
        match Turn::new(alloc, solo, calls, parts) {
            Ok((turn, seat)) => Ok((
                Shared { turn },
                Pass {
                    seat,
                    actor: Actor::Host,
                },
            )),
            Err(refused) => Err(NoMemoryWith {
                state: refused.state.close().0,
            }),
        }
    }

    /// Waits for a turn, and lets the machine take a command.
    pub fn act<R: Wait>(
        &self,
        rt: &R,
        alloc: Global,
        pass: &mut Pass<M>,
        command: M::Command,
    ) -> Result<M::Reply, NoMemoryWith<M::Command>>
        requires shared { pass.old.shared ≡ self.now }
        requires calls { 1 ≤ pass.old.calls }
        ensures entered { IfOk result (λ reply. Enters pass.old pass.new (record { command = command; reply = reply } ∷ [])) }
        ensures unchanged { OnErr result (Enters pass.old pass.new []) }
        ensures back { IfErr result (λ refused. refused.state ≡ command) }
        ensures steps { AreSteps M.after M.effect M.reply self.now.first.machine pass.new.seen }
        ensures stand { StandIn pass.new.seen pass.new.actor pass.new.made }
    {
        let mut solo = self.turn.begin(rt, &mut pass.seat);
        let made = solo.act(alloc, pass.actor, command);
        self.turn.finish(&mut pass.seat, solo);
        made
    }

    /// Waits for one turn, and lets the machine take all commands in it, in order and next to each other. Where there is no
    /// memory for one, it and those behind it come back.
    pub fn act_all<R: Wait>(
        &self,
        rt: &R,
        alloc: Global,
        pass: &mut Pass<M>,
        commands: Vec<M::Command>,
    ) -> Result<(), NoMemoryWith<Vec<M::Command>>>
        requires shared { pass.old.shared ≡ self.now }
        requires some_command { 1 ≤ length commands.items }
        requires calls { length commands.items ≤ pass.old.calls }
        ensures entered { OnOk result (EntersAll pass.old pass.new commands.items) }
        ensures rest { IfErr result (λ refused. (taken : List M.Command) × (taken ++ refused.state.items ≡ commands.items) × EntersAll pass.old pass.new taken) }
        ensures some_back { IfErr result (λ refused. 1 ≤ length refused.state.items) }
        ensures steps { AreSteps M.after M.effect M.reply self.now.first.machine pass.new.seen }
        ensures stand { StandIn pass.new.seen pass.new.actor pass.new.made }
    {
        let mut solo = self.turn.begin(rt, &mut pass.seat);
        let made = solo.act_all(alloc, pass.actor, commands);
        self.turn.finish(&mut pass.seat, solo);
        made
    }

    /// Makes a pass of an actor, with one part and so many of the calls. It takes no memory.
    pub fn split(&self, pass: &mut Pass<M>, actor: Actor, calls: u64) -> Pass<M>
        requires shared { pass.old.shared ≡ self.now }
        requires parts { 2 ≤ pass.old.parts }
        requires calls { calls ≤ pass.old.calls }
        ensures kept { pass.new ≡ kept_pass pass.old calls }
        ensures given { result ≡ given_pass pass.old actor calls }
    {
        let seat = self.turn.split(&mut pass.seat, tag_of(actor), calls);
        Pass { seat, actor }
    }

    /// Gives a pass what another one has. It takes no memory.
    pub fn join(&self, pass: &mut Pass<M>, other: Pass<M>)
        requires shared { (pass.old.shared ≡ self.now) × (other.shared ≡ self.now) }
        ensures joined { pass.new ≡ joined_pass pass.old other }
        ensures longer { IsPrefix pass.old.seen pass.new.seen × IsPrefix other.seen pass.new.seen }
    {
        let Pass { seat, actor: _ } = other;
        self.turn.join(&mut pass.seat, seat);
    }

    /// Ends the sharing, and gives the machine and its journal back. It takes no memory.
    pub fn close(self, pass: Pass<M>) -> (M, Journal<M>)
        requires shared { pass.shared ≡ self }
        requires whole { pass.parts ≡ self.parts }
        ensures later { IsPrefix pass.seen result.1 }
        ensures replayed { Replays M.after M.effect M.reply self.first.machine result.1 result.0 }
        ensures named { AreNamed result.1 (all_made pass) }
        ensures exact { (actor : Actor) (calls : List (Call M.Command M.Reply)) → StandsOnce actor calls (all_made pass) → calls_by actor result.1 ≡ calls }
        ensures count { length result.1 + pass.calls ≡ self.calls }
    {
        let Shared { turn } = self;
        let Pass { seat, actor: _ } = pass;
        turn.close(seat).close()
    }
}

// The tag of an actor's seat.
fn tag_of(actor: Actor) -> u64
    ensures { result ≡ tag_by actor }
{
    match actor {
        Actor::Host => 0,
        Actor::Author(author) => 1 + 2 * author as u64,
        Actor::Send(send) => 2 + 2 * send as u64,
    }
}
