ghost use Rattle.std.specs.Prelude.{◌≡◌};
ghost use Rattle.grove_calls.specs.Rules.{AreFor};
ghost use Rattle.grove_calls.specs.Served.{IsServed};
ghost use Rattle.grove_tools.specs.Due.{tool_rules};

use crate::outcome::{Handed, ToolOutcome};
use crate::tool_form::ToolForm;
use crate::words::tool_of;
use grove_calls::serve;
use grove_io::{Sink, Source};
use seeded_hash::HashSeed;
use std::alloc::Global;
use std::sync::Wait;
use std::thread::Threads;

/// Runs a form of the tools: `words` are those after the program's name.
///
/// The words are judged first, then the length of the input, then its text. The whole output is formed before anything is written.
pub fn run_tool<R: Threads + Wait + Sync, S: Source, K: Sink>(
    rt: &R,
    alloc: Global,
    seed: HashSeed,
    words: &[String],
    source: &mut S,
    sink: &mut K,
) -> ToolOutcome
    ensures { IsServed tool_rules words.now
        (record { left = S.left source.old; read_faults = S.faults source.old; taken = K.taken sink.old; write_faults = K.faults sink.old })
        (record { left = S.left source.new; read_faults = S.faults source.new; taken = K.taken sink.new; write_faults = K.faults sink.new })
        (S.never_fails source.old) (source.new ≡ source.old) (K.never_fails sink.old) (record { relayed = result.relayed; kept = result.kept }) result.status }
{
    let form = form_of(rt, seed, words);
    let (status, Handed { relayed, kept }) = serve(alloc, form, source, sink);
    ToolOutcome {
        status,
        relayed,
        kept,
    }
}

// What the words ask for, with what it takes to answer it.
fn form_of<'r, R>(rt: &'r R, seed: HashSeed, words: &[String]) -> Option<ToolForm<'r, R>>
    ensures { AreFor tool_rules (λ form. form.tool) result words.now }
{
    match tool_of(words) {
        Some(tool) => Some(ToolForm { rt, seed, tool }),
        None => None,
    }
}
