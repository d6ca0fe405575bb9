ghost use Rattle.std.specs.Prelude.{◌≡◌, ◌≢◌, ◌++◌, ◌⊎◌, List, OnOk, OnErr, IfErr};
ghost use Rattle.grove_editor.specs.State.{with_fed, without_fed};
ghost use Rattle.grove_editor.specs.Taken.{HasTaken, after_fault};
ghost use Rattle.grove_sorts.specs.declared.version.Version.{Version};
ghost use Rattle.grove_edits.specs.declared.edit.Edit.{Edit};
ghost use Rattle.edit_text.specs.declared.text_fault.TextFault.{TextFault};
ghost use Rattle.edit_text.specs.Whole.{HasWholeFault, IsTextOf};
ghost use Rattle.grove_c.specs.BadLines.{bad_line, fault_code, no_bad_line};
ghost use Rattle.grove_c.specs.declared.code.TheConstants.{DONE, MALFORMED, NO_MEMORY};

use crate::bad_line::{BadLine, NO_BAD_LINE, bad_line_of};
use crate::code::{DONE, MALFORMED, NO_MEMORY};
use crate::held::Held;
use core::mem::replace_with;
use edit_text::TextFault;
use grove_editor::NoMemory;

/// Feeds some bytes of an edit text, which may be cut anywhere, behind those that were fed before.
#[unsafe(no_mangle)]
pub extern "C" fn grove_c_piece(held: &mut Held, bytes: &[u8]) -> u32
    ensures fed { result ≡ DONE → held.new.editor ≡ with_fed (held.old.editor.fed ++ bytes.now) held.old.editor }
    ensures unchanged { result ≢ DONE → held.new.editor ≡ held.old.editor }
    ensures codes { (result ≡ DONE) ⊎ (result ≡ NO_MEMORY) }
{
    match replace_with(held, bytes, feed) {
        Ok(()) => DONE,
        Err(_) => NO_MEMORY,
    }
}

fn feed(held: Held, bytes: &[u8]) -> (Held, Result<(), NoMemory>)
    ensures fed { OnOk result.1 (result.0.editor ≡ with_fed (held.editor.fed ++ bytes.now) held.editor) }
    ensures unchanged { OnErr result.1 (result.0.editor ≡ held.editor) }
{
    let mut instance = held.into_instance();
    let opened = &mut *instance;
    opened.text = None;
    let fed = opened.editor.feed(bytes);
    (Held::of(instance), fed)
}

/// Joins the edits that were fed to the graph, all of them or none, and drops what was fed; it is kept where memory runs out.
#[unsafe(no_mangle)]
pub extern "C" fn grove_c_take(held: &mut Held, bad: &mut BadLine) -> u32
    ensures taken { result ≡ DONE → (version : Version) × (edits : List Edit) × IsTextOf held.old.editor.fed version edits × HasTaken edits (without_fed held.old.editor) held.new.editor }
    ensures fault { result ≢ DONE → (fault : TextFault) × HasWholeFault held.old.editor.fed fault × (bad.new ≡ bad_line fault) × (held.new.editor ≡ after_fault fault held.old.editor) }
    ensures no_fault { result ≡ DONE → bad.new ≡ no_bad_line }
    ensures no_memory { result ≡ NO_MEMORY → held.new.editor ≡ held.old.editor }
    ensures malformed { result ≡ MALFORMED → held.new.editor ≡ without_fed held.old.editor }
    ensures codes { (result ≡ DONE) ⊎ ((result ≡ MALFORMED) ⊎ (result ≡ NO_MEMORY)) }
{
    tell(replace_with(held, (), take), bad)
}

fn take(held: Held, _nothing: ()) -> (Held, Result<(), TextFault>)
    ensures taken { OnOk result.1 ((version : Version) × (edits : List Edit) × IsTextOf held.editor.fed version edits × HasTaken edits (without_fed held.editor) result.0.editor) }
    ensures fault { IfErr result.1 (HasWholeFault held.editor.fed) }
    ensures left { IfErr result.1 (λ fault. result.0.editor ≡ after_fault fault held.editor) }
{
    let mut instance = held.into_instance();
    let opened = &mut *instance;
    opened.text = None;
    let taken = opened.editor.take();
    (Held::of(instance), taken)
}

/// Joins the edits of a whole text to the graph, all of them or none.
#[unsafe(no_mangle)]
pub extern "C" fn grove_c_apply(held: &mut Held, text: &[u8], bad: &mut BadLine) -> u32
    ensures taken { result ≡ DONE → (version : Version) × (edits : List Edit) × IsTextOf text.now version edits × HasTaken edits held.old.editor held.new.editor }
    ensures fault { result ≢ DONE → (fault : TextFault) × HasWholeFault text.now fault × (bad.new ≡ bad_line fault) }
    ensures no_fault { result ≡ DONE → bad.new ≡ no_bad_line }
    ensures unchanged { result ≢ DONE → held.new.editor ≡ held.old.editor }
    ensures codes { (result ≡ DONE) ⊎ ((result ≡ MALFORMED) ⊎ (result ≡ NO_MEMORY)) }
{
    tell(replace_with(held, text, apply), bad)
}

fn apply(held: Held, text: &[u8]) -> (Held, Result<(), TextFault>)
    ensures taken { OnOk result.1 ((version : Version) × (edits : List Edit) × IsTextOf text.now version edits × HasTaken edits held.editor result.0.editor) }
    ensures fault { IfErr result.1 (HasWholeFault text.now) }
    ensures unchanged { OnErr result.1 (result.0.editor ≡ held.editor) }
{
    let mut instance = held.into_instance();
    let opened = &mut *instance;
    opened.text = None;
    let applied = opened.editor.apply(text);
    (Held::of(instance), applied)
}

// The code of what became of a text of edits; its first bad line is told.
fn tell(taken: Result<(), TextFault>, bad: &mut BadLine) -> u32
    ensures done { OnOk taken (result ≡ DONE) }
    ensures no_fault { OnOk taken (bad.new ≡ no_bad_line) }
    ensures code { IfErr taken (λ fault. result ≡ fault_code fault) }
    ensures fault { IfErr taken (λ fault. bad.new ≡ bad_line fault) }
{
    match taken {
        Ok(()) => {
            *bad = NO_BAD_LINE;
            DONE
        }
        Err(fault) => {
            *bad = bad_line_of(fault);
            code_of_fault(fault)
        }
    }
}

fn code_of_fault(fault: TextFault) -> u32
    ensures { result ≡ fault_code fault }
{
    match fault {
        TextFault::NoMemory => NO_MEMORY,
        TextFault::Malformed { .. } | TextFault::Rest { .. } => MALFORMED,
    }
}
