//! What forms the answers of commands: `Plain` starts no threads.
ghost use Rattle.grove_calls.specs.Rules.{AreFor};
ghost use Rattle.grove_top.specs.declared.command.Command.{Command};
ghost use Rattle.grove_top.specs.declared.command.Command.TheVariants.{Ask};
ghost use Rattle.grove_top.specs.Words.{AreOf, IsPlain};
ghost use Rattle.grove_top.specs.Due.{top_rules};

use crate::command::{Command, Question};
use crate::commands::form_answer;
use crate::words::command_of;
use grove_calls::{Form, Formed, Refusal};
use replica_core::Replica;
use seeded_hash::HashSeed;
use session_report::JournalList;
use std::alloc::Global;

const USAGE: &[u8] = b"usage: grove merge | show | check | run | gen N\n";

/// A question of a graph, which starts no threads.
#[derive(Drop)]
pub(crate) struct Plain {
    pub(crate) seed: HashSeed,
    pub(crate) question: Question,
}

impl Form for Plain {
    type Command = Command;

    type Handed = JournalList<Replica>;

    ghost use Rattle.grove_top.specs.declared.command.Command.TheVariants.{Ask};
    ghost use Rattle.grove_top.specs.Due.{top_rules};

    ghost rules = { top_rules };

    ghost command = { λ form. Ask form.question };

    fn reads(&self) -> bool {
        true
    }

    fn form(&self, alloc: Global, text: &[u8]) -> Result<Formed<JournalList<Replica>>, Refusal> {
        form_answer(alloc, self.seed, self.question, text)
    }

    fn nothing(alloc: Global) -> JournalList<Replica> {
        JournalList::new(alloc)
    }

    fn usage() -> &'static [u8] {
        USAGE
    }
}

/// A question, if the words are those of one.
pub(crate) fn plain_form(seed: HashSeed, words: &[String]) -> Option<Plain>
    requires { (command : Command) → AreOf command words.now → IsPlain command }
    ensures { AreFor top_rules (λ form. Ask form.question) result words.now }
{
    match command_of(words) {
        Some(Command::Ask(question)) => Some(Plain { seed, question }),
        Some(Command::Run) | Some(Command::Generate { .. }) => unreachable!(),
        None => None,
    }
}

/// Any command, with what forms its answer.
#[derive(Drop)]
pub(crate) struct Threaded<F> {
    pub(crate) answer: F,
    pub(crate) command: Command,
}

impl<F: Fn(Global, Command, &[u8]) -> Result<Formed<JournalList<Replica>>, Refusal>> Form
    for Threaded<F> {
    type Command = Command;

    type Handed = JournalList<Replica>;

    ghost use Rattle.std.specs.Prelude.{◌≤◌, length, IfOk, IfErr};
    ghost use Rattle.grove_calls.specs.Rules.{IsAsked};
    ghost use Rattle.grove_calls.specs.Due.{IsRefusal, most_bytes};
    ghost use Rattle.grove_top.specs.declared.command.Command.{Command};
    ghost use Rattle.grove_top.specs.Due.{IsAnswerTo, top_rules};
    ghost use Rattle.grove_top.specs.Known.{where_known};

    // A method is not told that threads may share a runtime and a gate, so it is given what uses them, and the rules hand on what that answers.
    ghost rules = { where_known top_rules
        (((f : F) (alloc : _) (command : Command) (text : _) → length text.now ≤ most_bytes → IsAsked top_rules command → F.pre f alloc command text)
        × ((f : F) (alloc : _) (command : Command) (text : _) (result : _) → F.post f alloc command text result
        → IfOk result (λ formed. IsAnswerTo command text.now formed.handed formed.text.items) × IfErr result (IsRefusal top_rules command text.now))) };

    ghost command = { λ form. form.command };

    fn reads(&self) -> bool {
        match self.command {
            Command::Ask(_) | Command::Run => true,
            Command::Generate { .. } => false,
        }
    }

    fn form(&self, alloc: Global, text: &[u8]) -> Result<Formed<JournalList<Replica>>, Refusal> {
        (self.answer)(alloc, self.command, text)
    }

    fn nothing(alloc: Global) -> JournalList<Replica> {
        JournalList::new(alloc)
    }

    fn usage() -> &'static [u8] {
        USAGE
    }
}

/// What the words ask for, with what forms its answer.
pub(crate) fn threaded_form<F: Drop>(answer: F, words: &[String]) -> Option<Threaded<F>>
    ensures { AreFor top_rules (λ form. form.command) result words.now }
{
    match command_of(words) {
        Some(command) => Some(Threaded { answer, command }),
        None => None,
    }
}
