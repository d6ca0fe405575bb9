ghost use Rattle.std.specs.Prelude.{◌≡◌, ◌++◌, [], ℕ, List, IfOk, OnOk, OnErr};
ghost use Rattle.grove_edits.specs.Graph.{graph};
ghost use Rattle.grove_answers.specs.Texts.{IsCanonicalText};

use crate::edit_run::EditRun;
use crate::piece::Piece;
use crate::writing::append_canonical;
use graph_words::Steps;
use grove_edits::{Actor, Answer};
use shared_replica::Machine;
use std::alloc::Global;
use std::marker::Model;
use std::sync::ledger::Ledger;
use text_parts::NoMemory;

/// The runs that were taken, in order: a machine that keeps what it takes, and no more. Contracts see the edits.
#[derive(Drop)]
pub struct Gathering {
    runs: Vec<EditRun>,
}

impl Model for Gathering {
    ghost use Rattle.std.specs.Prelude.{List};
    ghost use Rattle.grove_edits.specs.declared.edit.Edit.{Edit};
    ghost use Rattle.edit_runs.specs.Runs.{joined};

    ghost Value = { List Edit };

    ghost view = { λ gathering. joined gathering.runs.items };
}

impl Gathering {
    pub fn new(alloc: Global) -> Gathering
        ensures empty { result ≡ [] }
    {
        Gathering {
            runs: Vec::new(alloc),
        }
    }

    /// Appends the canonical text of the graph of the edits.
    pub fn canonical(&self, alloc: Global, out: &mut Vec<u8>) -> Result<(), NoMemory>
        ensures appended { OnOk result ((text : List ℕ) × IsCanonicalText (graph self.now) text × (out.new.items ≡ out.old.items ++ text)) }
        ensures unchanged { OnErr result (out.new.items ≡ out.old.items) }
    {
        append_canonical(alloc, &self.runs, out)
    }
}

impl Machine for Gathering {
    ghost use Rattle.edit_runs.specs.Gathering.{after, effect, reply};

    type Command = Piece;

    type Effect = EditRun;

    type Reply = Answer;

    ghost after = { after };

    ghost effect = { effect };

    ghost reply = { reply };

    ghost cost = { λ _ _ _. 0 };

    fn step<L: Ledger>(
        &mut self,
        _alloc: Global,
        _actor: Actor,
        command: &Piece,
        _steps: &mut Steps<L>,
    ) -> Result<(EditRun, Answer), NoMemory> {
        let effect = command.edits.share()?;
        let many = effect.as_slice().len() as u64;
        self.runs.push(command.edits.share()?)?;
        Ok((effect, Answer::Taken { edits: many }))
    }
}
