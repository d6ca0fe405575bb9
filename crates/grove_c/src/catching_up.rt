ghost use Rattle.std.specs.Prelude.{◌≡◌, ◌≢◌, ◌++◌, ◌<◌, ◌⊎◌, ℕ, List, length, drop, IfOk, IfErr};
ghost use Rattle.edit_ranges.specs.Text.{HasSummaryFault, IsMalformed};
ghost use Rattle.edit_ranges.specs.declared.fault.RangeFault.{RangeFault};
ghost use Rattle.grove_editor.specs.CatchingUp.{IsLackingText};
ghost use Rattle.grove_c.specs.BadLines.{no_bad_line, range_bad_line};
ghost use Rattle.grove_c.specs.declared.code.TheConstants.{DONE, MALFORMED, NO_ROOM, NO_MEMORY};

use crate::bad_line::{BadLine, NO_BAD_LINE, bad_line_of_range};
use crate::code::{MALFORMED, NO_MEMORY};
use crate::held::Held;
use crate::room::copy_text;
use core::mem::replace_with;
use grove_editor::SummaryFault;
use std::alloc::Global;

/// Copies the edits that another editor lacks by the text of its summary to the front of the room, and writes their length. Where the room
/// is too short only the length is written, and after every other code nothing but the first bad line of the summary.
#[unsafe(no_mangle)]
pub extern "C" fn grove_c_lacking(
    alloc: Global,
    held: &mut Held,
    summary: &[u8],
    room: &mut [u8],
    text_length: &mut usize,
    bad: &mut BadLine,
) -> u32
    ensures same { held.new.editor ≡ held.old.editor }
    ensures copied { result ≡ DONE → (text : List ℕ) × IsLackingText summary.now held.old.editor.edits text × (text_length.new ≡ length text) × (room.new ≡ text ++ drop (length text) room.old) }
    ensures too_short { result ≡ NO_ROOM → (text : List ℕ) × IsLackingText summary.now held.old.editor.edits text × (text_length.new ≡ length text) × (length room.old < length text) }
    ensures untouched { result ≢ DONE → room.new ≡ room.old }
    ensures no_length { result ≢ DONE → result ≢ NO_ROOM → text_length.new ≡ text_length.old }
    ensures malformed { result ≡ MALFORMED → (line : ℕ) × (fault : RangeFault) × IsMalformed summary.now line fault × (bad.new ≡ range_bad_line line fault) }
    ensures no_fault { result ≢ MALFORMED → bad.new ≡ no_bad_line }
    ensures codes { (result ≡ DONE) ⊎ ((result ≡ NO_ROOM) ⊎ ((result ≡ NO_MEMORY) ⊎ (result ≡ MALFORMED))) }
{
    match replace_with(held, (alloc, summary), answer) {
        Ok(text) => {
            *bad = NO_BAD_LINE;
            copy_text(&text, room, text_length)
        }
        Err(SummaryFault::Malformed { line, fault }) => {
            *bad = bad_line_of_range(line, fault);
            MALFORMED
        }
        Err(SummaryFault::NoMemory) => {
            *bad = NO_BAD_LINE;
            NO_MEMORY
        }
    }
}

fn answer(held: Held, given: (Global, &[u8])) -> (Held, Result<Vec<u8>, SummaryFault>)
    ensures text { IfOk result.1 (λ text. IsLackingText given.entry.1.now held.editor.edits text.items) }
    ensures fault { IfErr result.1 (HasSummaryFault given.entry.1.now) }
    ensures same { result.0.editor ≡ held.editor }
{
    let (alloc, summary) = given;
    let instance = held.into_instance();
    let mut text = Vec::new(alloc);
    let answered = instance.editor.append_lacking(summary, &mut text);
    (Held::of(instance), answered.map(|()| text))
}
