ghost use Rattle.std.specs.Prelude.{◌≡◌, ◌≢◌, ◌++◌, ◌<◌, ◌⊎◌, ℕ, List, length, drop, IfOk, IfErr};
ghost use Rattle.grove_edits.specs.Graph.{graph};
ghost use Rattle.graph_words.specs.Names.{IsGreatest, IsNameOf};
ghost use Rattle.grove_editor.specs.Records.{IsVertexFault};
ghost use Rattle.grove_editor.specs.declared.vertex_fault.VertexFault.TheVariants as vertex_fault;
ghost use Rattle.grove_c.specs.Texts.{IsRecordOf, IsTextOf, IsTextNumbered, number_of};
ghost use Rattle.grove_c.specs.declared.code.TheConstants.{DONE, WRONG_CALL, MALFORMED, NO_ROOM, NO_MEMORY, NO_VERTEX};
ghost use Rattle.grove_c.specs.declared.text_kind.TextKind.{TextKind};

use crate::code::{MALFORMED, NO_MEMORY, NO_VERTEX, WRONG_CALL};
use crate::held::Held;
use crate::instance::MadeText;
use crate::room::copy_text;
use crate::text_kind::{TextKind, text_kind};
use core::mem::replace_with;
use grove_editor::{NoMemory, VertexFault};
use std::alloc::Global;

/// Copies the text of this number to the front of the room, and writes its length. Where the room is too short only the length is written,
/// and after every other code nothing.
#[unsafe(no_mangle)]
pub extern "C" fn grove_c_text(
    alloc: Global,
    held: &mut Held,
    which: u32,
    room: &mut [u8],
    text_length: &mut usize,
) -> u32
    ensures same { held.new.editor ≡ held.old.editor }
    ensures copied { result ≡ DONE → (text : List ℕ) × IsTextNumbered held.old.editor which text × (text_length.new ≡ length text) × (room.new ≡ text ++ drop (length text) room.old) }
    ensures too_short { result ≡ NO_ROOM → (text : List ℕ) × IsTextNumbered held.old.editor which text × (text_length.new ≡ length text) × (length room.old < length text) }
    ensures untouched { result ≢ DONE → room.new ≡ room.old }
    ensures no_length { result ≢ DONE → result ≢ NO_ROOM → text_length.new ≡ text_length.old }
    ensures unknown { result ≡ WRONG_CALL → (kind : TextKind) → number_of kind ≢ which }
    ensures codes { (result ≡ DONE) ⊎ ((result ≡ NO_ROOM) ⊎ ((result ≡ NO_MEMORY) ⊎ (result ≡ WRONG_CALL))) }
{
    let Some(kind) = text_kind(which) else {
        return WRONG_CALL;
    };
    match replace_with(held, (alloc, kind), take_text) {
        Ok(text) => {
            let code = copy_text(&text.bytes, room, text_length);
            replace_with(held, text, keep_text);
            code
        }
        Err(_) => NO_MEMORY,
    }
}

fn take_text(held: Held, given: (Global, TextKind)) -> (Held, Result<MadeText, NoMemory>)
    ensures kind { IfOk result.1 (λ text. text.kind ≡ given.1) }
    ensures text { IfOk result.1 (λ text. IsTextOf held.editor given.1 text.bytes.items) }
    ensures same { result.0.editor ≡ held.editor }
{
    let (alloc, kind) = given;
    let mut instance = held.into_instance();
    let text = instance.take_text(alloc, kind);
    (Held::of(instance), text)
}

fn keep_text(held: Held, text: MadeText) -> (Held, ())
    requires { IsTextOf held.editor text.kind text.bytes.items }
    ensures same { result.0.editor ≡ held.editor }
{
    let mut instance = held.into_instance();
    instance.keep_text(text);
    (Held::of(instance), ())
}

/// Copies the record of a vertex to the front of the room likewise.
#[unsafe(no_mangle)]
pub extern "C" fn grove_c_judged(
    alloc: Global,
    held: &mut Held,
    vertex: &[u8],
    room: &mut [u8],
    text_length: &mut usize,
) -> u32
    ensures same { held.new.editor ≡ held.old.editor }
    ensures copied { result ≡ DONE → (text : List ℕ) × IsRecordOf held.old.editor vertex.now text × (text_length.new ≡ length text) × (room.new ≡ text ++ drop (length text) room.old) }
    ensures too_short { result ≡ NO_ROOM → (text : List ℕ) × IsRecordOf held.old.editor vertex.now text × (text_length.new ≡ length text) × (length room.old < length text) }
    ensures untouched { result ≢ DONE → room.new ≡ room.old }
    ensures no_length { result ≢ DONE → result ≢ NO_ROOM → text_length.new ≡ text_length.old }
    ensures malformed { result ≡ MALFORMED → IsVertexFault (graph held.old.editor.edits) vertex.now vertex_fault.Syntax }
    ensures no_vertex { result ≡ NO_VERTEX → IsVertexFault (graph held.old.editor.edits) vertex.now vertex_fault.NoVertex }
    ensures never { result ≢ WRONG_CALL }
{
    match replace_with(held, (alloc, vertex), judge) {
        Ok(text) => copy_text(&text, room, text_length),
        Err(VertexFault::Syntax) => MALFORMED,
        Err(VertexFault::NoVertex) => NO_VERTEX,
        Err(VertexFault::NoMemory) => NO_MEMORY,
    }
}

fn judge(held: Held, given: (Global, &[u8])) -> (Held, Result<Vec<u8>, VertexFault>)
    ensures text { IfOk result.1 (λ text. IsRecordOf held.editor given.entry.1.now text.items) }
    ensures fault { IfErr result.1 (IsVertexFault (graph held.editor.edits) given.entry.1.now) }
    ensures same { result.0.editor ≡ held.editor }
{
    let (alloc, words) = given;
    let instance = held.into_instance();
    let mut text = Vec::new(alloc);
    let judged = instance.editor.append_judged(words, &mut text);
    (Held::of(instance), judged.map(|()| text))
}

/// The greatest counter of an author among the names of the graph, and 0 where none is by the author.
#[unsafe(no_mangle)]
pub extern "C" fn grove_c_greatest(held: &mut Held, author: u32) -> u64
    ensures greatest { IsGreatest (IsNameOf (graph held.old.editor.edits)) author result }
    ensures same { held.new.editor ≡ held.old.editor }
{
    replace_with(held, author, greatest)
}

fn greatest(held: Held, author: u32) -> (Held, u64)
    ensures greatest { IsGreatest (IsNameOf (graph held.editor.edits)) author result.1 }
    ensures same { result.0.editor ≡ held.editor }
{
    let instance = held.into_instance();
    let counter = instance.editor.greatest(author);
    (Held::of(instance), counter)
}
