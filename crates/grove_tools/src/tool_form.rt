//! What each form answers.
use crate::infer::form_infer;
use crate::keep::form_keep;
use crate::outcome::Handed;
use crate::relay::form_relay;
use crate::report::form_json;
use crate::tool::Tool;
use crate::undoing::form_undo;
use grove_calls::{Form, Formed, Refusal};
use seeded_hash::HashSeed;
use std::alloc::Global;
use std::sync::Wait;
use std::thread::Threads;

const USAGE: &[u8] = b"usage: grove_tools relay N | infer | keep | undo N | json\n";

/// What the words ask for, with what it takes to answer it.
#[derive(Drop)]
pub(crate) struct ToolForm<'r, R> {
    pub(crate) rt: &'r R,
    pub(crate) seed: HashSeed,
    pub(crate) tool: Tool,
}

impl<'r, R: Threads + Wait + Sync> Form for ToolForm<'r, R> {
    type Command = Tool;

    type Handed = Handed;

    ghost use Rattle.std.specs.Thread.{IsSync};
    ghost use Rattle.grove_tools.specs.Due.{tool_rules};
    ghost use Rattle.grove_tools.specs.Known.{where_known};

    // A method is not told that threads may share the runtime, so the rules hand that on.
    ghost rules = { where_known tool_rules (IsSync R.row) };

    ghost command = { λ form. form.tool };

    fn reads(&self) -> bool {
        true
    }

    fn form(&self, alloc: Global, text: &[u8]) -> Result<Formed<Handed>, Refusal> {
        match self.tool {
            Tool::Relay { senders } => form_relay(self.rt, alloc, senders, text),
            Tool::Infer => form_infer(alloc, self.seed, text),
            Tool::Keep => form_keep(alloc, text),
            Tool::Undo { author } => form_undo(alloc, self.seed, author, text),
            Tool::Json => form_json(alloc, self.seed, text),
        }
    }

    fn nothing(_alloc: Global) -> Handed {
        Handed {
            relayed: None,
            kept: None,
        }
    }

    fn usage() -> &'static [u8] {
        USAGE
    }
}
