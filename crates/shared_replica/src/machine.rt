ghost use Rattle.std.specs.Prelude.{◌≡◌, ℕ, ◌+◌, ◌≤◌, IfOk, OnOk, OnErr};

use graph_words::Steps;
use grove_edits::Actor;
use std::alloc::Global;
use std::sync::ledger::Ledger;
use text_parts::NoMemory;

/// A machine that takes commands one at a time. What contracts see of it is its model data: a step depends on these alone,
/// on the actor and on the command.
pub trait Machine: Send + Drop {
    type Command: Send + Drop;

    type Effect: Send + Drop;

    type Reply: Copy + Send;

    ghost use Rattle.grove_edits.specs.declared.actor.Actor.{Actor};

    /// The machine after a step.
    ghost after: { Self → Actor → Self.Command → Self };

    /// What a step did.
    ghost effect: { Self → Actor → Self.Command → Self.Effect };

    /// What a step answers.
    ghost reply: { Self → Actor → Self.Command → Self.Reply };

    /// How often a step counts at most.
    ghost cost: { Self → Actor → Self.Command → ℕ };

    fn step<L: Ledger>(
        &mut self,
        alloc: Global,
        actor: Actor,
        command: &Self::Command,
        steps: &mut Steps<L>,
    ) -> Result<(Self::Effect, Self::Reply), NoMemory>
        ensures answer { IfOk result (λ made. (made.0 ≡ effect self.old actor command.now) × (made.1 ≡ reply self.old actor command.now)) }
        ensures stepped { OnOk result (self.new ≡ after self.old actor command.now) }
        ensures unchanged { OnErr result (self.new ≡ self.old) }
        ensures bounded { steps.new ≤ steps.old + cost self.old actor command.now };
}
