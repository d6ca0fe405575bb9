use crate::planning::due;
use crate::replica::Replica;
use graph_words::Steps;
use grove_edits::{Actor, Answer, Command};
use shared_edits::SharedEdits;
use shared_replica::Machine;
use std::alloc::Global;
use std::sync::ledger::Ledger;
use text_parts::NoMemory;

impl Machine for Replica {
    type Command = Command;

    type Effect = SharedEdits;

    type Reply = Answer;

    ghost use Rattle.replica_core.specs.Step as step;
    ghost use Rattle.replica_core.specs.Cost.{edits_cost};

    ghost after = { λ content actor command. step.after content actor command };

    ghost effect = { λ content actor command. step.effect content actor command };

    ghost reply = { λ content actor command. step.reply content actor command };

    ghost cost = { λ content actor command. edits_cost content (step.effect content actor command) };

    fn step<L: Ledger>(
        &mut self,
        alloc: Global,
        actor: Actor,
        command: &Command,
        steps: &mut Steps<L>,
    ) -> Result<(SharedEdits, Answer), NoMemory> {
        let (edits, answer) = due(alloc, &self.view(), actor, command)?;
        let effect = self.shared(alloc, command, edits)?;
        self.take(effect.as_slice(), steps)?;
        Ok((effect, answer))
    }
}
