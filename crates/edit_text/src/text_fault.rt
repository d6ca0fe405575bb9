ghost use Rattle.std.specs.Prelude.{◌≡◌};
ghost use Rattle.edit_text.specs.declared.text_fault.TextFault.TheVariants.{NoMemory};

use crate::line_fault::LineFault;
use text_parts::NoMemory;

/// Why a text was not read.
#[derive(Clone, Copy, Debug, PartialEq, Eq)]
pub enum TextFault {
    /// The first line, counted from 1, that spells no edit, and its first fault.
    Malformed { line: u64, fault: LineFault },
    /// Bytes stand behind the last LF; `line` is the number of the line that they begin.
    Rest { line: u64 },
    /// Memory ran out.
    NoMemory,
}

impl From<NoMemory> for TextFault {
    ghost from_gives = { λ _ fault. fault ≡ NoMemory };

    fn from(_error: NoMemory) -> TextFault {
        TextFault::NoMemory
    }
}
