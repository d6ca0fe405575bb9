ghost use Rattle.grove_calls.specs.Judged.{LinesAreJudged, HasEditsOrFault};

use edit_text::{read_line, split_version};
use grove_sorts::Version;
use text_parts::split_at_first;

/// Law: each text spells edits, or it has a first line without a reading, and that line a first fault.
pub fn a_text_has_edits_or_a_fault(text: &[u8])
    ensures { HasEditsOrFault text.now }
{
    let (version, lines) = split_version(text);
    judge_lines(version, lines);
}

#[tactic(auto, using(crate::proofs::JudgedLines::none_left))]
fn judge_lines(version: Version, lines: &[u8])
    ensures { LinesAreJudged version lines.now }
{
    let Some((line, after)) = split_at_first(lines, b'\n') else {
        return;
    };
    if let Ok(_edit) = read_line(version, line) {
        judge_lines(version, after);
    }
}
