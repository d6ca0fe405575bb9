ghost use Rattle.std.specs.Prelude.{◌≡◌, [], ◌∷◌, ◌++◌, Some, IfOk, IfErr};
ghost use Rattle.text_parts.specs.Separated.{Lacks};
ghost use Rattle.edit_text.specs.Line.{Spells, HasFault};
ghost use Rattle.edit_text.specs.Text.{text_of, AreOf};
ghost use Rattle.edit_stream.specs.Stream.{Reads};

use edit_text::{LineFault, read_line};
use grove_edits::{Edit, EditList};
use grove_sorts::Version;
use std::alloc::Global;
use text_parts::{NoMemory, split_at_first};

/// What the ended lines of a text give: their edits up to the first bad line, its fault if there is one, and else the bytes behind the last LF.
#[derive(Drop)]
pub(crate) struct Reading {
    pub(crate) edits: EditList,
    pub(crate) kept: Vec<u8>,
    pub(crate) fault: Option<LineFault>,
}

impl Reading {
    // The reading of a text that goes wrong behind the lines of these edits.
    fn stopped(alloc: Global, edits: EditList, fault: LineFault) -> Reading
        ensures edits { result.edits ≡ edits }
        ensures nothing { result.kept.items ≡ [] }
        ensures fault { result.fault ≡ Some fault }
    {
        Reading {
            edits,
            kept: Vec::new(alloc),
            fault: Some(fault),
        }
    }
}

/// Reads a text of lines of the version whose first line ends with `end` and begins with kept bytes; `rest` stands behind its LF.
pub(crate) fn read_lines(
    alloc: Global,
    version: Version,
    kept: &[u8],
    end: &[u8],
    rest: &[u8],
) -> Result<Reading, NoMemory>
    requires one_line { Lacks 10 (kept.now ++ end.now) }
    ensures reads { IfOk result (λ reading. Reads version (kept.now ++ (end.now ++ 10 ∷ rest.now)) reading.edits reading.kept.items reading.fault) }
{
    let mut edits = EditList::new(alloc);
    match read_joined_line(alloc, version, kept, end)? {
        Err(fault) => Ok(Reading::stopped(alloc, edits, fault)),
        Ok(edit) => {
            edits.reserve(most_lines(rest).saturating_add(1))?;
            edits.push(edit)?;
            read_more_lines(alloc, version, edits, rest)
        }
    }
}

// At least as many lines as a text can have that are all of edits: each ends with an LF, and none is shorter than `+1.1 0.0 root main 1.1 if`.
fn most_lines(text: &[u8]) -> usize {
    let ends = text.iter().filter(|byte| **byte == b'\n').count();
    ends.min(text.len() / 24)
}

// A line that no cut falls into is read where it stands.
fn read_joined_line(
    alloc: Global,
    version: Version,
    kept: &[u8],
    end: &[u8],
) -> Result<Result<Edit, LineFault>, NoMemory>
    ensures edit { IfOk result (λ read. IfOk read (Spells version (kept.now ++ end.now))) }
    ensures first_fault { IfOk result (λ read. IfErr read (HasFault version (kept.now ++ end.now))) }
{
    if kept.is_empty() {
        return Ok(read_line(version, end));
    }
    let mut line = Vec::from_slice(alloc, kept)?;
    line.extend_from_slice(end)?;
    Ok(read_line(version, &line))
}

// The reading of the lines of edits with a text behind them.
fn read_more_lines(
    alloc: Global,
    version: Version,
    mut edits: EditList,
    text: &[u8],
) -> Result<Reading, NoMemory>
    requires { AreOf version edits }
    ensures reads { IfOk result (λ reading. Reads version (text_of edits ++ text.now) reading.edits reading.kept.items reading.fault) }
{
    let mut rest = text;
    while let Some((line, after)) = split_at_first(rest, b'\n') {
        match read_line(version, line) {
            Err(fault) => return Ok(Reading::stopped(alloc, edits, fault)),
            Ok(edit) => edits.push(edit)?,
        }
        rest = after;
    }
    let kept = Vec::from_slice(alloc, rest)?;
    Ok(Reading {
        edits,
        kept,
        fault: None,
    })
}
