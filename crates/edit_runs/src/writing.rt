ghost use Rattle.std.specs.Prelude.{◌≡◌, ◌++◌, ℕ, List, IfOk, OnOk, OnErr};
ghost use Rattle.grove_edits.specs.declared.edit.Edit.{Edit};
ghost use Rattle.grove_edits.specs.Graph.{graph};
ghost use Rattle.grove_sorts.specs.declared.version.Version.TheVariants.{Two};
ghost use Rattle.edit_text.specs.Text.{text_of, SpellsAll};
ghost use Rattle.edit_merge.specs.Merged.{IsMerged};
ghost use Rattle.grove_answers.specs.Texts.{IsCanonicalText};
ghost use Rattle.edit_runs.specs.Runs.{joined};

use crate::edit_run::EditRun;
use edit_merge::merge_lines;
use edit_text::{TextFault, write_edits};
use grove_sorts::Version;
use std::alloc::Global;
use text_parts::NoMemory;

// About how many bytes the line of an edit has. Room is made for that many at once; lines may be longer.
const LIKELY_LINE: usize = 40;

/// Appends the canonical text of the graph of the edits of some runs. Their lines are sorted, since an edit is three times as wide.
pub(crate) fn append_canonical(
    alloc: Global,
    runs: &[EditRun],
    out: &mut Vec<u8>,
) -> Result<(), NoMemory>
    ensures appended { OnOk result ((text : List ℕ) × IsCanonicalText (graph (joined runs.now)) text × (out.new.items ≡ out.old.items ++ text)) }
    ensures unchanged { OnErr result (out.new.items ≡ out.old.items) }
{
    let lines = lines_of(alloc, runs)?;
    let text = merged(alloc, &lines)?;
    out.extend_from_slice(&text)?;
    Ok(())
}

// The lines of the edits of all runs.
fn lines_of(alloc: Global, runs: &[EditRun]) -> Result<Vec<u8>, NoMemory>
    ensures { IfOk result (λ lines. lines.items ≡ text_of (joined runs.now)) }
{
    let mut lines = Vec::new(alloc);
    lines.reserve(edit_count(runs).saturating_mul(LIKELY_LINE))?;
    for run in runs {
        write_edits(run.as_slice(), &mut lines)?;
    }
    Ok(lines)
}

fn edit_count(runs: &[EditRun]) -> usize {
    let mut count = 0usize;
    for run in runs {
        count = count.saturating_add(run.as_slice().len());
    }
    count
}

// The canonical text of the edits whose lines these are.
fn merged(alloc: Global, lines: &[u8]) -> Result<Vec<u8>, NoMemory>
    requires { (edits : List Edit) × SpellsAll Two lines.now edits }
    ensures { IfOk result (λ text. IsMerged Two lines.now text.items) }
{
    match merge_lines(alloc, Version::Two, lines) {
        Ok(text) => Ok(text),
        Err(TextFault::NoMemory) => Err(NoMemory),
        // Each of the lines is that of an edit.
        Err(TextFault::Malformed { .. }) => unreachable!(),
        Err(TextFault::Rest { .. }) => unreachable!(),
    }
}
