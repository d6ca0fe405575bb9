ghost use Rattle.std.specs.Prelude.{◌≡◌};
ghost use Rattle.edit_ranges.specs.declared.fault.SummaryFault.TheVariants.{NoMemory};

use text_parts::NoMemory;

/// What is wrong with a line of a summary.
#[derive(Clone, Copy, Debug, PartialEq, Eq)]
pub enum RangeFault {
    /// It is the line of no range: another sign, a number out of range or spelled otherwise, or a last counter that is not greater than the first.
    Syntax,
    /// Its range does not come after that of the line before it, or stands right behind it, so that one range has both.
    OutOfOrder,
    /// No LF ends it.
    Unended,
}

/// Why a text was not read as a summary.
#[derive(Clone, Copy, Debug, PartialEq, Eq)]
pub enum SummaryFault {
    /// The first bad line, counted from 1, and what is wrong with it.
    Malformed { line: u64, fault: RangeFault },
    /// Memory ran out.
    NoMemory,
}

impl From<NoMemory> for SummaryFault {
    ghost from_gives = { λ _ fault. fault ≡ NoMemory };

    fn from(_error: NoMemory) -> SummaryFault {
        SummaryFault::NoMemory
    }
}
