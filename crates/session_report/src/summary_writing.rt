ghost use Rattle.std.specs.Prelude.{◌≡◌, ◌++◌, IfOk, OnOk};
ghost use Rattle.session_report.specs.Summary.{summary_text, edit_lines, count_lines, equal_line};

use crate::report_writing::append_number_line;
use crate::summary::Summary;
use grove_answers::Counts;
use std::alloc::Global;
use text_parts::NoMemory;

/// The text of a summary: a line for each number, and one that tells whether all replicas print alike.
pub fn summary_text(alloc: Global, summary: &Summary) -> Result<Vec<u8>, NoMemory>
    ensures { IfOk result (λ text. text.items ≡ summary_text summary.now) }
{
    let mut text = Vec::new(alloc);
    append_edit_lines(summary, &mut text)?;
    append_count_lines(&summary.counts, &mut text)?;
    append_equal_line(summary.equal, &mut text)?;
    Ok(text)
}

fn append_edit_lines(summary: &Summary, out: &mut Vec<u8>) -> Result<(), NoMemory>
    ensures { OnOk result (out.new.items ≡ out.old.items ++ edit_lines summary.now) }
{
    append_number_line(b"edits ", summary.loads, out)?;
    append_number_line(b"live ", summary.live, out)?;
    append_number_line(b"deleted ", summary.deleted, out)
}

fn append_count_lines(counts: &Counts, out: &mut Vec<u8>) -> Result<(), NoMemory>
    ensures { OnOk result (out.new.items ≡ out.old.items ++ count_lines counts.now) }
{
    append_number_line(b"none ", counts.none, out)?;
    append_number_line(b"multi ", counts.multi, out)?;
    append_number_line(b"cycle ", counts.cycle, out)?;
    append_number_line(b"conflicts ", counts.conflicts, out)?;
    append_number_line(b"marks ", counts.marks, out)
}

fn append_equal_line(equal: bool, out: &mut Vec<u8>) -> Result<(), NoMemory>
    ensures { OnOk result (out.new.items ≡ out.old.items ++ equal_line equal) }
{
    let line: &[u8] = if equal { b"equal yes\n" } else { b"equal no\n" };
    Ok(out.extend_from_slice(line)?)
}
