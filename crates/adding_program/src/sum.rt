ghost use Rattle.std.specs.Prelude.{◌+◌, ◌%◌, ◌^◌};

use graph_words::Steps;
use grove_edits::Actor;
use shared_replica::{Machine, NoMemory};
use std::alloc::Global;
use std::sync::ledger::Ledger;

/// A sum. A command adds a number to it, and the reply is the sum then.
#[derive(Drop)]
pub(crate) struct Sum {
    pub(crate) total: u64,
}

impl Machine for Sum {
    type Command = u64;

    type Effect = u64;

    type Reply = u64;

    ghost after = { λ sum _ number. record { total = (sum.total + number) % 2 ^ 64 } };

    ghost effect = { λ _ _ number. number };

    ghost reply = { λ sum _ number. (sum.total + number) % 2 ^ 64 };

    ghost cost = { λ _ _ _. 1 };

    fn step<L: Ledger>(
        &mut self,
        _alloc: Global,
        _actor: Actor,
        command: &u64,
        steps: &mut Steps<L>,
    ) -> Result<(u64, u64), NoMemory> {
        steps.tick();
        self.total = self.total.wrapping_add(*command);
        Ok((*command, self.total))
    }
}
