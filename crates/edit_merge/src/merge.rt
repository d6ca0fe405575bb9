ghost use Rattle.std.specs.Prelude.{IfOk, IfErr};
ghost use Rattle.std.specs.List.Sorted.{IsSorted, IsPermutation};
ghost use Rattle.edit_text.specs.Text.{HasTextFault};
ghost use Rattle.edit_merge.specs.Merged.{IsMerged};

use crate::named_line::NamedLine;
use crate::naming::name_lines;
use crate::naming_in_parts::name_lines_in_parts;
use crate::writing::write_lines;
use edit_text::TextFault;
use grove_sorts::Version;
use rayon::prelude::par_sort_unstable;
use std::alloc::Global;
use std::thread::Threads;

/// The canonical text of the edits that lines of the version spell, or the first line that spells none, counted from 1.
pub fn merge_lines(alloc: Global, version: Version, lines: &[u8]) -> Result<Vec<u8>, TextFault>
    ensures merged { IfOk result (λ text. IsMerged version lines.now text.items) }
    ensures fault { IfErr result (HasTextFault version lines.now) }
{
    let mut named = name_lines(alloc, version, lines)?;
    named.sort_unstable();
    Ok(write_lines(alloc, version, lines, &named)?)
}

/// The same, its lines named and sorted in so many parts side by side.
pub fn merge_lines_in_parts<R: Threads + Sync>(
    rt: &R,
    alloc: Global,
    version: Version,
    lines: &[u8],
    parts: usize,
) -> Result<Vec<u8>, TextFault>
    ensures merged { IfOk result (λ text. IsMerged version lines.now text.items) }
    ensures fault { IfErr result (HasTextFault version lines.now) }
{
    let mut named = name_lines_in_parts(rt, alloc, version, lines, parts)?;
    sort_in_parts(rt, &mut named);
    Ok(write_lines(alloc, version, lines, &named)?)
}

fn sort_in_parts<R: Threads + Sync>(rt: &R, lines: &mut Vec<NamedLine>)
    ensures permutation { IsPermutation lines.old.items lines.new.items }
    ensures sorted { IsSorted ⟦<NamedLine as Ord>⟧.cmp lines.new.items }
{
    par_sort_unstable(rt, lines.as_mut_slice());
}
