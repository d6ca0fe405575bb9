ghost use Rattle.std.specs.Prelude.{◌≡◌, ◌∷◌, [], ◌++◌, ℕ, List, IfSome, IfOk, IfErr};
ghost use Rattle.std.specs.Thread.{IsSync};
ghost use Rattle.edit_text.specs.Text.{HasTextFault};
ghost use Rattle.edit_merge.specs.Named.{AreNamed};

use crate::joined_names::join_named;
use crate::named_line::NamedLine;
use crate::naming::name_lines;
use edit_text::TextFault;
use grove_sorts::Version;
use std::alloc::Global;
use std::thread::{Threads, join};
use text_parts::split_at_first;

/// What `name_lines` answers, of so many parts of the text, each of whole lines, side by side.
pub(crate) fn name_lines_in_parts<R: Threads + Sync>(
    rt: &R,
    alloc: Global,
    version: Version,
    text: &[u8],
    parts: usize,
) -> Result<Vec<NamedLine>, TextFault>
    ensures named { IfOk result (λ lines. AreNamed version text.now lines.items) }
    ensures fault { IfErr result (HasTextFault version text.now) }
{
    if parts < 2 {
        return name_lines(alloc, version, text);
    }
    let Some((front, back)) = split_behind_line(text, text.len() / 2) else {
        return name_lines(alloc, version, text);
    };
    let fewer = parts / 2;
    let others = parts - fewer;
    let (back_lines, front_lines) = join(
        rt,
        move || -> Result<Vec<NamedLine>, TextFault>
            requires { IsSync R.row }
            ensures { IfOk result (λ lines. AreNamed version back.entry.now lines.items) × IfErr result (HasTextFault version back.entry.now) }
        { name_lines_in_parts(rt, alloc, version, back, others) },
        move || -> Result<Vec<NamedLine>, TextFault>
            requires { IsSync R.row }
            ensures { IfOk result (λ lines. AreNamed version front.entry.now lines.items) × IfErr result (HasTextFault version front.entry.now) }
        { name_lines_in_parts(rt, alloc, version, front, fewer) },
    );
    join_named(version, front, front_lines, back, back_lines)
}

// The text in two, cut behind the first line that ends at the index or later.
fn split_behind_line(text: &[u8], index: usize) -> Option<(&[u8], &[u8])>
    ensures parts { IfSome result (λ parts. text.now ≡ parts.0.now ++ parts.1.now) }
    ensures ended { IfSome result (λ parts. (before : List ℕ) × (parts.0.now ≡ before ++ 10 ∷ [])) }
{
    let (low, high) = text.split_at(index.min(text.len()));
    let (line, _) = split_at_first(high, b'\n')?;
    Some(text.split_at(low.len() + line.len() + 1))
}
