ghost use Rattle.std.specs.Prelude.{ℕ, List, IfOk, IfErr};
ghost use Rattle.grove_sorts.specs.declared.version.Version.{Version};
ghost use Rattle.edit_text.specs.Text.{HasTextFault, SpellsAll};
ghost use Rattle.edit_text.specs.Whole.{HasVersion, HasWholeFault, IsTextOf};

use edit_text::{TextFault, header_lines, read_line, split_version};
use grove_edits::EditList;
use grove_sorts::Version;
use std::alloc::Global;
use text_parts::split_at_first;

/// The edits that a text spells, in the order of its lines, or the first line that spells none.
pub fn read_edits(alloc: Global, text: &[u8]) -> Result<EditList, TextFault>
    ensures spelled { IfOk result (λ edits. (version : Version) × IsTextOf text.now version edits) }
    ensures fault { IfErr result (HasWholeFault text.now) }
{
    let (version, lines) = split_version(text);
    match read_lines(alloc, version, lines) {
        Ok(edits) => Ok(edits),
        Err(fault) => Err(fault_of_text(version, text, fault)),
    }
}

// The fault of a text whose lines have the fault: they are counted with the one that tells the version.
fn fault_of_text(version: Version, text: &[u8], fault: TextFault) -> TextFault
    requires { (lines : List ℕ) × HasVersion text.now version lines × HasTextFault version lines fault }
    ensures { HasWholeFault text.now result }
{
    // No line has a greater number than the text has bytes.
    let _bytes = text.len();
    let before = header_lines(version);
    match fault {
        TextFault::Malformed { line, fault } => TextFault::Malformed {
            line: before + line,
            fault,
        },
        TextFault::Rest { line } => TextFault::Rest {
            line: before + line,
        },
        TextFault::NoMemory => TextFault::NoMemory,
    }
}

fn read_lines(alloc: Global, version: Version, lines: &[u8]) -> Result<EditList, TextFault>
    ensures spelled { IfOk result (SpellsAll version lines.now) }
    ensures fault { IfErr result (HasTextFault version lines.now) }
{
    let mut edits = EditList::new(alloc);
    let mut rest = lines;
    while let Some((line, after)) = split_at_first(rest, b'\n') {
        match read_line(version, line) {
            Ok(edit) => edits.push(edit)?,
            Err(fault) => {
                return Err(TextFault::Malformed {
                    line: edits.len() as u64 + 1,
                    fault,
                });
            }
        }
        rest = after;
    }
    if rest.is_empty() {
        Ok(edits)
    } else {
        Err(TextFault::Rest {
            line: edits.len() as u64 + 1,
        })
    }
}
