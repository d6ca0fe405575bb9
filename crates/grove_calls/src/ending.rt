ghost use Rattle.std.specs.Prelude.{◌≡◌};
ghost use Rattle.grove_calls.specs.Exit.{exit_number};

use crate::fault::Fault;

/// How a call ended, and with it what stands written.
#[derive(Clone, Copy, Debug, PartialEq, Eq)]
pub enum Ending {
    /// The whole output is written.
    Done,
    /// The words are those of no command; the usage line is written.
    Usage,
    /// The first line of the input without a reading, counted from 1; its fault line is written.
    Malformed { line: u64, fault: Fault },
    /// The input has more than `MOST_BYTES` bytes; the line `too long` is written.
    TooLong,
    /// The input has a reading, of which the command makes nothing; the line `unfit` is written.
    Unfit,
    /// The source failed; nothing is written.
    ReadFault,
    /// The sink failed; a part of the text that was due is written, from its front.
    WriteFault,
    /// Memory ran out; nothing is written.
    NoMemory,
}

/// The exit status with which a program ends.
pub fn exit_status(ending: Ending) -> u8
    ensures { result ≡ exit_number ending }
{
    match ending {
        Ending::Done => 0,
        Ending::Usage => 2,
        Ending::Malformed { .. } => 3,
        Ending::TooLong => 4,
        Ending::ReadFault => 5,
        Ending::WriteFault => 6,
        Ending::NoMemory => 7,
        Ending::Unfit => 8,
    }
}
