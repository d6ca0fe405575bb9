ghost use Rattle.std.specs.Prelude.{◌≡◌, ◌≤◌, ◌<◌, ◌^◌, ◌+◌, length, ℕ, List, [], ◌∷◌, ◌++◌, true, Some, IfOk, IfErr, IfSome, IsSomeAnd, OnOk};
ghost use Rattle.edit_ranges.specs.declared.told.Told.{Told};
ghost use Rattle.edit_ranges.specs.declared.name_range.NameRange.{NameRange};
ghost use Rattle.edit_ranges.specs.Ranges.{are_ranges, is_range};
ghost use Rattle.edit_ranges.specs.Text.{HasSummaryFault, last_text, range_text, sign, summary_text};

use crate::fault::{RangeFault, SummaryFault};
use crate::name_range::NameRange;
use crate::summary::Summary;
use crate::told::Told;
use grove_names::take_name;
use std::alloc::Global;
use text_parts::{NoMemory, read_number, split_at_first};

/// Reads a summary that all of a text spells, or answers the first bad line.
pub fn read_summary(alloc: Global, text: &[u8]) -> Result<Summary, SummaryFault>
    ensures read { IfOk result (λ summary. text.now ≡ summary_text summary) }
    ensures fault { IfErr result (HasSummaryFault text.now) }
{
    let mut ranges = Vec::new(alloc);
    let mut rest = text;
    while let Some((line, after)) = split_at_first(rest, b'\n') {
        let Some(range) = read_range(line) else {
            return Err(malformed(&ranges, RangeFault::Syntax));
        };
        if !may_follow(&ranges, &range) {
            return Err(malformed(&ranges, RangeFault::OutOfOrder));
        }
        push(&mut ranges, range)?;
        rest = after;
    }
    if !rest.is_empty() {
        return Err(malformed(&ranges, RangeFault::Unended));
    }
    Ok(Summary { ranges })
}

fn push(ranges: &mut Vec<NameRange>, range: NameRange) -> Result<(), NoMemory>
    ensures { OnOk result (ranges.new.items ≡ ranges.old.items ++ range ∷ []) }
{
    Ok(ranges.push(range)?)
}

// The fault of the line behind those of ranges.
fn malformed(ranges: &[NameRange], fault: RangeFault) -> SummaryFault
    ensures { result ≡ SummaryFault.Malformed (length ranges.now + 1) fault }
{
    SummaryFault::Malformed {
        line: ranges.len() as u64 + 1,
        fault,
    }
}

// Whether a range may stand behind ranges in order.
fn may_follow(ranges: &[NameRange], range: &NameRange) -> bool
    requires in_order { are_ranges ranges.now ≡ true }
    requires is_range { is_range range.now ≡ true }
    ensures { result ≡ are_ranges (ranges.now ++ range.now ∷ []) }
{
    match ranges {
        [] => true,
        [.., last] => last.is_apart(range),
    }
}

// Reads the line of a range, given without its LF.
fn read_range(line: &[u8]) -> Option<NameRange>
    ensures found { IfSome result (λ range. line.now ≡ range_text range) }
    ensures is_range { IfSome result (λ range. is_range range ≡ true) }
    ensures only { (range : NameRange) → is_range range ≡ true → line.now ≡ range_text range → result ≡ Some range }
{
    let (told, rest) = take_told(line)?;
    let (name, rest) = take_name(rest)?;
    let last = read_last(name.counter, rest)?;
    Some(NameRange {
        told,
        author: name.author,
        first: name.counter,
        last,
    })
}

fn take_told(line: &[u8]) -> Option<(Told, &[u8])>
    ensures found { IfSome result (λ read. line.now ≡ sign read.0 ∷ read.1.now) }
    ensures only { (told : Told) (rest : List ℕ) → line.now ≡ sign told ∷ rest → IsSomeAnd result (λ read. (read.0 ≡ told) × (read.1.now ≡ rest)) }
{
    match line {
        [b'+', rest @ ..] => Some((Told::Named, rest)),
        [b'-', rest @ ..] => Some((Told::Deleted, rest)),
        _ => None,
    }
}

// Reads the last counter of a range, which stands behind its first one: nothing where the two are one.
fn read_last(first: u64, text: &[u8]) -> Option<u64>
    ensures found { IfSome result (λ last. text.now ≡ last_text first last) }
    ensures no_less { IfSome result (λ last. first ≤ last) }
    ensures only { (last : ℕ) → first ≤ last → last < 2 ^ 64 → text.now ≡ last_text first last → result ≡ Some last }
{
    match text {
        [] => Some(first),
        [b'-', digits @ ..] => {
            let last = read_number(digits)?;
            if first < last { Some(last) } else { None }
        }
        _ => None,
    }
}
