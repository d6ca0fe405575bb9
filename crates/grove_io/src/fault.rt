// What a call of the outside, or the reading of a whole source, can answer in place of bytes.
ghost use Rattle.std.specs.Prelude.{◌≡◌};
ghost use Rattle.grove_io.specs.declared.fault.InputFault.TheVariants.{NoMemory, ReadFault};

use std::alloc::AllocError;
use std::error::Error;
use std::fmt;
use text_parts::NoMemory;

/// A call of a source or of a sink failed. It moved no byte, and the count of faults has risen.
#[derive(Clone, Copy, Debug, PartialEq, Eq)]
pub struct Failed;

impl fmt::Display for Failed {
    fn fmt<W: fmt::Write>(&self, f: &mut fmt::Formatter<W>) -> fmt::Result {
        write!(f, "the outside failed")
    }
}

impl Error for Failed {}

/// Why a source was not read to its end.
#[derive(Clone, Copy, Debug, PartialEq, Eq)]
pub enum InputFault {
    /// It gave one byte more than the limit.
    TooLong,
    /// A read failed.
    ReadFault,
    /// There was no memory for the bytes that it gave.
    NoMemory,
}

impl fmt::Display for InputFault {
    fn fmt<W: fmt::Write>(&self, f: &mut fmt::Formatter<W>) -> fmt::Result {
        match self {
            InputFault::TooLong => write!(f, "the input is too long"),
            InputFault::ReadFault => write!(f, "a read failed"),
            InputFault::NoMemory => write!(f, "out of memory"),
        }
    }
}

impl Error for InputFault {}

impl From<Failed> for InputFault {
    ghost from_gives = { λ _ fault. fault ≡ ReadFault };

    fn from(_: Failed) -> Self {
        InputFault::ReadFault
    }
}

impl From<AllocError> for InputFault {
    ghost from_gives = { λ _ fault. fault ≡ NoMemory };

    fn from(_: AllocError) -> Self {
        InputFault::NoMemory
    }
}

impl From<NoMemory> for InputFault {
    ghost from_gives = { λ _ fault. fault ≡ NoMemory };

    fn from(_: NoMemory) -> Self {
        InputFault::NoMemory
    }
}
