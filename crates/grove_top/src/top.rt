ghost use Rattle.std.specs.Prelude.{◌≡◌, ◌≤◌, length, IfOk, IfErr};
ghost use Rattle.grove_calls.specs.Rules.{IsAsked};
ghost use Rattle.grove_calls.specs.Due.{IsRefusal, most_bytes};
ghost use Rattle.grove_calls.specs.Served.{IsServed};
ghost use Rattle.grove_top.specs.declared.command.Command.{Command};
ghost use Rattle.grove_top.specs.Words.{AreOf, IsPlain};
ghost use Rattle.grove_top.specs.Due.{IsAnswerTo, top_rules};
ghost use Rattle.grove_top.specs.EndingOf.{ending_of};

use crate::command::Command;
use crate::commands::form_threaded;
use crate::forms::{plain_form, threaded_form};
use crate::outcome::{Outcome, status_of};
use grove_calls::{Formed, Refusal, serve};
use grove_io::{Gate, Sink, Source};
use replica_core::Replica;
use seeded_hash::HashSeed;
use session_report::JournalList;
use std::alloc::Global;
use std::sync::Wait;
use std::thread::Threads;

/// Runs a command: `words` are those after the program's name.
///
/// The words are judged first, then the length of the input, then its text. A generated session reads nothing. The whole output is formed before anything
/// is written. What is written is the same whatever the seed is: where nobody can choose the seed, nobody can write a text whose vertices,
/// types and contexts are slow to look up. A read fault comes before `TooLong` and `Malformed`, and a write fault on their lines replaces them.
/// The authors and the sends of a block are threads, and the gate says when the calls of authors may start.
pub fn run<R: Threads + Wait + Sync, S: Source, K: Sink, G: Gate>(
    rt: &R,
    alloc: Global,
    seed: HashSeed,
    words: &[String],
    source: &mut S,
    sink: &mut K,
    gate: &G,
) -> Outcome
    ensures { IsServed top_rules words.now
        (record { left = S.left source.old; read_faults = S.faults source.old; taken = K.taken sink.old; write_faults = K.faults sink.old })
        (record { left = S.left source.new; read_faults = S.faults source.new; taken = K.taken sink.new; write_faults = K.faults sink.new })
        (S.never_fails source.old) (source.new ≡ source.old) (K.never_fails sink.old) result.journals (ending_of result.status) }
{
    let answer = |alloc: Global, command: Command, text: &[u8]| -> Result<
        Formed<JournalList<Replica>>,
        Refusal,
    >
        requires short { length text.now ≤ most_bytes }
        requires asked { IsAsked top_rules command }
        ensures answered { IfOk result (λ formed. IsAnswerTo command text.now formed.handed formed.text.items) }
        ensures refused { IfErr result (IsRefusal top_rules command text.now) }
    { form_threaded(rt, alloc, seed, command, text, gate) };
    let form = threaded_form(answer, words);
    let (ending, journals) = serve(alloc, form, source, sink);
    Outcome {
        status: status_of(ending),
        journals,
    }
}

/// Runs a command that starts no threads, or tells the usage: `run` for all words but those of `run` and `gen`. It waits for nobody.
pub fn run_plain<S: Source, K: Sink>(
    alloc: Global,
    seed: HashSeed,
    words: &[String],
    source: &mut S,
    sink: &mut K,
) -> Outcome
    requires plain { (command : Command) → AreOf command words.now → IsPlain command }
    ensures { IsServed top_rules words.now
        (record { left = S.left source.old; read_faults = S.faults source.old; taken = K.taken sink.old; write_faults = K.faults sink.old })
        (record { left = S.left source.new; read_faults = S.faults source.new; taken = K.taken sink.new; write_faults = K.faults sink.new })
        (S.never_fails source.old) (source.new ≡ source.old) (K.never_fails sink.old) result.journals (ending_of result.status) }
{
    let (ending, journals) = serve(alloc, plain_form(seed, words), source, sink);
    Outcome {
        status: status_of(ending),
        journals,
    }
}
