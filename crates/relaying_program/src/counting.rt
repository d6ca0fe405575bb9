ghost use Rattle.std.specs.Prelude.{◌+◌, ◌%◌, ◌^◌, length};
ghost use Rattle.grove_edits.specs.declared.answer.Answer.TheVariants.{Taken};

use edit_runs::Piece;
use graph_words::Steps;
use grove_edits::{Actor, Answer};
use shared_replica::{Machine, NoMemory};
use std::alloc::Global;
use std::sync::ledger::Ledger;

/// How many edits were taken.
#[derive(Drop)]
pub(crate) struct Counting {
    pub(crate) edits: u64,
}

impl Machine for Counting {
    type Command = Piece;

    type Effect = u64;

    type Reply = Answer;

    ghost after = { λ counting _ piece. record { edits = (counting.edits + length piece.edits) % 2 ^ 64 } };

    ghost effect = { λ _ _ piece. length piece.edits };

    ghost reply = { λ _ _ piece. Taken (length piece.edits) };

    ghost cost = { λ _ _ _. 0 };

    fn step<L: Ledger>(
        &mut self,
        _alloc: Global,
        _actor: Actor,
        command: &Piece,
        _steps: &mut Steps<L>,
    ) -> Result<(u64, Answer), NoMemory> {
        let many = command.edits.as_slice().len() as u64;
        self.edits = self.edits.wrapping_add(many);
        Ok((many, Answer::Taken { edits: many }))
    }
}
