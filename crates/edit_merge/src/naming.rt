ghost use Rattle.std.specs.Prelude.{◌≡◌, ◌∷◌, [], ◌++◌, OnOk, IfOk, IfErr};
ghost use Rattle.edit_text.specs.Text.{HasTextFault};
ghost use Rattle.edit_merge.specs.Named.{AreNamed};

use crate::named_line::NamedLine;
use edit_text::{TextFault, read_spelled_line};
use grove_sorts::Version;
use std::alloc::Global;
use text_parts::{NoMemory, split_at_first};

/// The named lines of a text, in the order in which they stand, or the first line that spells no edit.
pub(crate) fn name_lines(
    alloc: Global,
    version: Version,
    text: &[u8],
) -> Result<Vec<NamedLine>, TextFault>
    ensures named { IfOk result (λ lines. AreNamed version text.now lines.items) }
    ensures fault { IfErr result (HasTextFault version text.now) }
{
    let mut lines = Vec::new(alloc);
    let mut rest = text;
    while let Some((line, after)) = split_at_first(rest, b'\n') {
        match read_spelled_line(version, line) {
            Ok(edit) => {
                let start = text.len() - rest.len();
                let end = start + line.len();
                let named = NamedLine::new(edit.name(), start, end)?;
                push(&mut lines, named)?;
            }
            Err(fault) => {
                let line = lines.len() as u64 + 1;
                return Err(TextFault::Malformed { line, fault });
            }
        }
        rest = after;
    }
    if rest.is_empty() {
        Ok(lines)
    } else {
        let line = lines.len() as u64 + 1;
        Err(TextFault::Rest { line })
    }
}

fn push(lines: &mut Vec<NamedLine>, line: NamedLine) -> Result<(), NoMemory>
    ensures { OnOk result (lines.new.items ≡ lines.old.items ++ line ∷ []) }
{
    Ok(lines.push(line)?)
}
