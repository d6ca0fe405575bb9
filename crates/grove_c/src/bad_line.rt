ghost use Rattle.std.specs.Prelude.{◌≡◌};
ghost use Rattle.grove_c.specs.BadLines.{bad_line, number_of_fault, number_of_range_fault, range_bad_line};

use edit_text::{LineFault, TextFault};
use grove_editor::RangeFault;

/// The first bad line of an edit text or of a summary, counted from 1, and what is wrong with it by the number that C has for it. Both are 0 where nothing
/// is.
#[repr(C)]
#[derive(Clone, Copy)]
pub struct BadLine {
    pub line: u64,
    pub fault: u32,
}

/// No line is bad.
pub(crate) const NO_BAD_LINE: BadLine = BadLine { line: 0, fault: 0 };

/// The line of which a fault tells.
pub(crate) fn bad_line_of(fault: TextFault) -> BadLine
    ensures { result ≡ bad_line fault }
{
    match fault {
        TextFault::Malformed { line, fault } => BadLine {
            line,
            fault: fault_number(fault),
        },
        TextFault::Rest { line } => BadLine { line, fault: 5 },
        TextFault::NoMemory => NO_BAD_LINE,
    }
}

fn fault_number(fault: LineFault) -> u32
    ensures { result ≡ number_of_fault fault }
{
    match fault {
        LineFault::Syntax => 1,
        LineFault::BadVertex => 2,
        LineFault::NoPosition => 3,
        LineFault::WrongSort => 4,
    }
}

/// The line of a summary that has this fault.
pub(crate) fn bad_line_of_range(line: u64, fault: RangeFault) -> BadLine
    ensures { result ≡ range_bad_line line fault }
{
    BadLine {
        line,
        fault: range_fault_number(fault),
    }
}

fn range_fault_number(fault: RangeFault) -> u32
    ensures { result ≡ number_of_range_fault fault }
{
    match fault {
        RangeFault::Syntax => 1,
        RangeFault::Unended => 5,
        RangeFault::OutOfOrder => 6,
    }
}
