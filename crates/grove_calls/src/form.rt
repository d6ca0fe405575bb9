ghost use Rattle.std.specs.Prelude.{◌≡◌, ◌≤◌, List, String, length, IsTrue, ◌↔◌, IfOk, IfErr};
ghost use Rattle.std.specs.declared.alloc.Global.{Global};
ghost use Rattle.grove_calls.specs.Rules.{Reads, IsAsked, nothing_of, usage_of};
ghost use Rattle.grove_calls.specs.Due.{IsAnswerTo, IsRefusal, most_bytes};

use crate::refusal::Refusal;
use std::alloc::Global;

/// A text to write, and what is handed out beside it.
#[derive(Drop)]
pub struct Formed<H: Drop> {
    pub text: Vec<u8>,
    pub handed: H,
}

/// What forms the answer of a command to a text.
pub trait Form {
    type Command;

    type Handed: Drop;

    ghost use Rattle.grove_calls.specs.Rules.{Rules};

    /// What the commands of the call answer.
    ghost rules: { Rules Self.Command Self.Handed };

    /// The command that is asked.
    ghost command: { Self → Self.Command };

    /// Whether the command reads the input.
    fn reads(&self) -> bool
        ensures { IsTrue result ↔ Reads rules (command self.now) };

    /// Forms the whole answer to a text, which does not matter to a command that does not read.
    fn form(&self, alloc: Global, text: &[u8]) -> Result<Formed<Self::Handed>, Refusal>
        requires short { length text.now ≤ most_bytes }
        requires asked { IsAsked rules (command self.now) }
        ensures answered { IfOk result (λ formed. IsAnswerTo rules (command self.now) text.now formed.handed formed.text.items) }
        ensures refused { IfErr result (IsRefusal rules (command self.now) text.now) };

    /// What is handed out where there is no answer.
    fn nothing(alloc: Global) -> Self::Handed
        ensures { result ≡ nothing_of rules };

    /// The usage line.
    fn usage() -> &'static [u8]
        ensures { result.now ≡ usage_of rules };
}
