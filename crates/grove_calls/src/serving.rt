ghost use Rattle.std.specs.Prelude.{◌≡◌, ◌⊎◌, ◌↔◌, ◌+◌, ◌<◌, ◌≤◌, ℕ, List, [], String, length, take, vec_len, IsTrue, IfOk, IsErrOf};
ghost use Rattle.std.specs.declared.alloc.Global.{Global};
ghost use Rattle.grove_io.specs.Outside.{HasRisen, Gave, Took, IsAtEnd};
ghost use Rattle.grove_calls.specs.Rules.{AreSound, AreFor, IsFormAsked, IsAsked, Reads, nothing_of};
ghost use Rattle.grove_calls.specs.Due.{IsCommandDue, malformed_text, most_bytes};
ghost use Rattle.grove_calls.specs.Served.{IsServed, Wrote};

use crate::ending::Ending;
use crate::fault::Fault;
use crate::form::{Form, Formed};
use crate::limit::MOST_BYTES;
use crate::refusal::Refusal;
use grove_io::{InputFault, Sink, Source, read_all, write_out};
use std::alloc::Global;
use text_parts::{NoMemory, write_number};

const TOO_LONG: &[u8] = b"too long\n";

const UNFIT: &[u8] = b"unfit\n";

/// Answers the command that a form is of, or tells the usage where there is none, and tells how that ended and what is handed out.
///
/// The length of the input is judged before its text. The whole output is formed before anything is written. A read fault comes before
/// `TooLong` and `Malformed`, and a write fault on their lines replaces them. To tell the usage takes no memory.
pub fn serve<F: Form + Drop, S: Source, K: Sink>(
    alloc: Global,
    form: Option<F>,
    source: &mut S,
    sink: &mut K,
) -> (Ending, F::Handed)
    requires sound { AreSound F.rules }
    requires asked { IsFormAsked F.rules F.command form }
    ensures { (words : List (String Global)) → AreFor F.rules F.command form words → IsServed F.rules words
        (record { left = S.left source.old; read_faults = S.faults source.old; taken = K.taken sink.old; write_faults = K.faults sink.old })
        (record { left = S.left source.new; read_faults = S.faults source.new; taken = K.taken sink.new; write_faults = K.faults sink.new })
        (S.never_fails source.old) (source.new ≡ source.old) (K.never_fails sink.old) result.1 result.0 }
{
    let Some(form) = form else {
        return (write(sink, Ending::Usage, F::usage()), F::nothing(alloc));
    };
    match read_for(alloc, &form, source) {
        Ok(text) => answer(alloc, &form, &text, sink),
        Err(InputFault::TooLong) => (write(sink, Ending::TooLong, TOO_LONG), F::nothing(alloc)),
        Err(InputFault::ReadFault) => (Ending::ReadFault, F::nothing(alloc)),
        Err(InputFault::NoMemory) => (Ending::NoMemory, F::nothing(alloc)),
    }
}

// Reads the input of a command, if the command reads.
fn read_for<F: Form, S: Source>(
    alloc: Global,
    form: &F,
    source: &mut S,
) -> Result<Vec<u8>, InputFault>
    ensures read { IfOk result (λ text. (Reads F.rules (F.command form.now) × IsAtEnd (S.left source.new)) ⊎ ((Reads F.rules (F.command form.now) → ⊥) × (text.items ≡ []))) }
    ensures short { IfOk result (λ text. vec_len text ≤ most_bytes) }
    ensures gave { IfOk result (λ text. Gave (S.left source.old) text.items (S.left source.new)) }
    ensures too_long { IsErrOf result InputFault.TooLong
        → Reads F.rules (F.command form.now) × ((given : List ℕ) × (length given ≡ most_bytes + 1) × Gave (S.left source.old) given (S.left source.new)) }
    ensures cause { IsErrOf result InputFault.ReadFault → Reads F.rules (F.command form.now) × HasRisen (S.faults source.old) (S.faults source.new) }
    ensures reads_nothing { (Reads F.rules (F.command form.now) → ⊥) → source.new ≡ source.old }
    ensures no_fault { S.never_fails source.old → S.faults source.new ≡ S.faults source.old }
{
    if form.reads() {
        read_all(alloc, source, MOST_BYTES)
    } else {
        Ok(Vec::new(alloc))
    }
}

// Writes what is due for a command on a text.
fn answer<F: Form, K: Sink>(
    alloc: Global,
    form: &F,
    text: &[u8],
    sink: &mut K,
) -> (Ending, F::Handed)
    requires short { length text.now ≤ most_bytes }
    requires asked { IsAsked F.rules (F.command form.now) }
    ensures due { ((result.0 ≡ Ending.NoMemory) × (result.1 ≡ nothing_of F.rules) × (sink.new ≡ sink.old))
        ⊎ ((ending : Ending) × (due : List ℕ) × IsCommandDue F.rules (F.command form.now) text.now result.1 ending due
        × Wrote ending due (K.taken sink.old) (K.taken sink.new) (K.faults sink.old) (K.faults sink.new) result.0) }
    ensures no_fault { (room : ℕ) → K.never_fails sink.old room
        → ((due : List ℕ) (other : F.Handed) (ending : Ending) → IsCommandDue F.rules (F.command form.now) text.now other ending due → length due ≤ room)
        → K.faults sink.new ≡ K.faults sink.old }
{
    match form.form(alloc, text) {
        Ok(Formed { text, handed }) => (write(sink, Ending::Done, &text), handed),
        Err(Refusal::Malformed { line, fault }) => {
            (tell_fault(alloc, line, fault, sink), F::nothing(alloc))
        }
        Err(Refusal::Unfit) => (write(sink, Ending::Unfit, UNFIT), F::nothing(alloc)),
        Err(Refusal::NoMemory) => (Ending::NoMemory, F::nothing(alloc)),
    }
}

// Writes the fault line, if there is memory for it.
fn tell_fault<K: Sink>(alloc: Global, line: u64, fault: Fault, sink: &mut K) -> Ending
    ensures told { ((result ≡ Ending.NoMemory) × (sink.new ≡ sink.old))
        ⊎ Wrote (Ending.Malformed line fault) (malformed_text line fault) (K.taken sink.old) (K.taken sink.new) (K.faults sink.old) (K.faults sink.new) result }
    ensures no_fault { (room : ℕ) → K.never_fails sink.old room → length (malformed_text line fault) ≤ room → K.faults sink.new ≡ K.faults sink.old }
{
    match fault_line(alloc, line, fault) {
        Ok(text) => write(sink, Ending::Malformed { line, fault }, &text),
        Err(NoMemory) => Ending::NoMemory,
    }
}

fn fault_line(alloc: Global, line: u64, fault: Fault) -> Result<Vec<u8>, NoMemory>
    ensures { IfOk result (λ text. text.items ≡ malformed_text line fault) }
{
    let mut text = Vec::from_slice(alloc, b"malformed ")?;
    write_number(line, &mut text)?;
    text.extend_from_slice(b" ")?;
    text.extend_from_slice(fault.word())?;
    text.extend_from_slice(b"\n")?;
    Ok(text)
}

// Writes the text that is due, and answers its ending, or that the sink failed.
fn write<K: Sink>(sink: &mut K, ending: Ending, due: &[u8]) -> Ending
    ensures wrote { Wrote ending due.now (K.taken sink.old) (K.taken sink.new) (K.faults sink.old) (K.faults sink.new) result }
    ensures no_fault { (room : ℕ) → K.never_fails sink.old room → length due.now ≤ room → K.faults sink.new ≡ K.faults sink.old }
{
    match write_out(sink, due) {
        Ok(()) => ending,
        Err(_) => Ending::WriteFault,
    }
}
