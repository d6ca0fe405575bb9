ghost use Rattle.std.specs.Prelude.{◌≡◌, ◌∷◌, [], ◌++◌, ℕ, List, length, map, IfOk, IfErr, OnOk};
ghost use Rattle.edit_text.specs.Text.{HasTextFault};
ghost use Rattle.edit_merge.specs.Named.{AreNamed};
ghost use Rattle.edit_merge.specs.InParts.{moved, IsBehind};

use crate::named_line::NamedLine;
use edit_text::TextFault;
use grove_sorts::Version;
use text_parts::NoMemory;

/// The named lines of two texts of which one stands behind the other, or the first fault of both, by what each has. The first one ends with
/// a line.
pub(crate) fn join_named(
    version: Version,
    front: &[u8],
    front_lines: Result<Vec<NamedLine>, TextFault>,
    back: &[u8],
    back_lines: Result<Vec<NamedLine>, TextFault>,
) -> Result<Vec<NamedLine>, TextFault>
    requires ended { (before : List ℕ) × (front.now ≡ before ++ 10 ∷ []) }
    requires front_named { IfOk front_lines (λ lines. AreNamed version front.now lines.items) }
    requires front_fault { IfErr front_lines (HasTextFault version front.now) }
    requires back_named { IfOk back_lines (λ lines. AreNamed version back.now lines.items) }
    requires back_fault { IfErr back_lines (HasTextFault version back.now) }
    ensures named { IfOk result (λ lines. AreNamed version (front.now ++ back.now) lines.items) }
    ensures fault { IfErr result (HasTextFault version (front.now ++ back.now)) }
{
    match front_lines {
        Ok(lines) => match back_lines {
            Ok(others) => Ok(with_moved(lines, front.len(), &others)?),
            Err(fault) => Err(fault_behind(lines.len(), fault)),
        },
        Err(fault) => Err(fault),
    }
}

// The lines, and behind them others that stand so many bytes further on.
fn with_moved(
    lines: Vec<NamedLine>,
    by: usize,
    others: &[NamedLine],
) -> Result<Vec<NamedLine>, NoMemory>
    ensures { IfOk result (λ all. all.items ≡ lines.items ++ map (moved by) others.now) }
{
    let mut all = lines;
    all.reserve(others.len())?;
    for other in others {
        push_moved(&mut all, by, *other)?;
    }
    Ok(all)
}

fn push_moved(lines: &mut Vec<NamedLine>, by: usize, line: NamedLine) -> Result<(), NoMemory>
    ensures { OnOk result (lines.new.items ≡ lines.old.items ++ moved by line ∷ []) }
{
    let start = (line.start as usize).checked_add(by).ok_or(NoMemory)?;
    let end = (line.end as usize).checked_add(by).ok_or(NoMemory)?;
    let line = NamedLine::new(line.name, start, end)?;
    lines.push(line)?;
    Ok(())
}

// The fault of a text behind so many lines. No memory holds so many that their number would not fit.
fn fault_behind(lines: usize, fault: TextFault) -> TextFault
    ensures { IsBehind lines fault result }
{
    let before = lines as u64;
    match fault {
        TextFault::Malformed { line, fault } => match line.checked_add(before) {
            Some(line) => TextFault::Malformed { line, fault },
            None => TextFault::NoMemory,
        },
        TextFault::Rest { line } => match line.checked_add(before) {
            Some(line) => TextFault::Rest { line },
            None => TextFault::NoMemory,
        },
        TextFault::NoMemory => TextFault::NoMemory,
    }
}
