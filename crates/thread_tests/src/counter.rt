//! A machine for tests of threads.
ghost use Rattle.std.specs.Prelude.{◌+◌, ◌%◌, ◌^◌};
ghost use Rattle.grove_edits.specs.declared.answer.Answer.TheVariants.{Done};

use graph_words::Steps;
use grove_edits::{Actor, Answer, Command};
use shared_replica::{Machine, NoMemory};
use std::alloc::Global;
use std::sync::ledger::Ledger;

/// Counts its steps, and tells before each how many there were.
#[derive(Drop)]
pub(crate) struct Counter {
    pub(crate) steps: u64,
}

impl Machine for Counter {
    type Command = Command;

    type Effect = u64;

    type Reply = Answer;

    ghost after = { λ counter _ _. record { steps = (counter.steps + 1) % 2 ^ 64 } };

    ghost effect = { λ counter _ _. counter.steps };

    ghost reply = { λ _ _ _. Done };

    ghost cost = { λ _ _ _. 1 };

    fn step<L: Ledger>(
        &mut self,
        _alloc: Global,
        _actor: Actor,
        _command: &Command,
        steps: &mut Steps<L>,
    ) -> Result<(u64, Answer), NoMemory> {
        steps.tick();
        let before = self.steps;
        self.steps = before.wrapping_add(1);
        Ok((before, Answer::Done))
    }
}
