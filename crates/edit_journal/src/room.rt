// How long a file is with more records in it, found without memory.
ghost use Rattle.std.specs.Prelude.{◌≡◌, ◌≤◌, ◌+◌, ℕ, List, length, map, IfOk, IfErr};
ghost use Rattle.edit_text.specs.Text.{line_of};
ghost use Rattle.edit_journal.specs.LogFile.{opened};
ghost use Rattle.edit_journal.specs.Fault.{IsFirstExcess};

use crate::disk::LONGEST;
use crate::line_length::line_length;
use grove_edits::Edit;

// The bytes of a record's length, and the gate before it.
const AROUND_A_LINE: u64 = 5;

/// With some records a file would be that long, and longer than a log may be.
#[derive(Clone, Copy, Debug, PartialEq, Eq)]
pub(crate) struct Excess {
    pub(crate) length: u64,
}

/// How long a file is with the edits' records behind it, or with those up to the first that is too much.
pub(crate) fn length_with(file_length: u64, edits: &[Edit]) -> Result<u64, Excess>
    requires { file_length ≤ LONGEST }
    ensures with_all { IfOk result (λ n. n ≡ file_length + length (opened (map line_of edits.now))) }
    ensures in_range { IfOk result (λ n. n ≤ LONGEST) }
    ensures excess { IfErr result (λ excess. (file : List ℕ) → length file ≡ file_length → IsFirstExcess file edits.now excess.length) }
{
    let mut length = file_length;
    for edit in edits {
        length += line_length(edit) + AROUND_A_LINE;
        if length > LONGEST {
            return Err(Excess { length });
        }
    }
    Ok(length)
}
