ghost use Rattle.std.specs.Prelude.{◌≡◌, ◌≢◌};
ghost use Rattle.grove_calls.specs.Exit.{exit_number};
ghost use Rattle.grove_top.specs.EndingOf.{ending_of};

use grove_calls::{Ending, Fault};
use replica_core::Replica;
use session_report::JournalList;

/// How a run ended, and the journals of the blocks that it ran. There are none unless a session was run and its report is
/// written, whole or in part.
#[derive(Drop)]
pub struct Outcome {
    pub status: Status,
    pub journals: JournalList<Replica>,
}

/// What a run answers, and with it what stands written.
#[derive(Clone, Copy, Debug, PartialEq, Eq)]
pub enum Status {
    /// The whole output is written.
    Done,
    /// The words are those of no command; the usage line is written.
    Usage,
    /// The first line of the input without a reading, counted from 1; its fault line is written.
    Malformed { line: u64, fault: Fault },
    /// The input has more than `MOST_BYTES` bytes; the line `too long` is written.
    TooLong,
    /// The source failed; nothing is written.
    ReadFault,
    /// The sink failed; a part of the text that was due is written, from its front.
    WriteFault,
    /// Memory ran out; nothing is written.
    NoMemory,
}

/// The exit status with which the program ends.
pub fn exit_status(status: Status) -> u8
    ensures { result ≡ exit_number (ending_of status) }
{
    grove_calls::exit_status(ending(status))
}

fn ending(status: Status) -> Ending
    ensures { result ≡ ending_of status }
{
    match status {
        Status::Done => Ending::Done,
        Status::Usage => Ending::Usage,
        Status::Malformed { line, fault } => Ending::Malformed { line, fault },
        Status::TooLong => Ending::TooLong,
        Status::ReadFault => Ending::ReadFault,
        Status::WriteFault => Ending::WriteFault,
        Status::NoMemory => Ending::NoMemory,
    }
}

/// The status of a run that ended so. Every input with a reading is fit for each command.
pub(crate) fn status_of(ending: Ending) -> Status
    requires { ending ≢ Ending.Unfit }
    ensures { ending_of result ≡ ending }
{
    match ending {
        Ending::Done => Status::Done,
        Ending::Usage => Status::Usage,
        Ending::Malformed { line, fault } => Status::Malformed { line, fault },
        Ending::TooLong => Status::TooLong,
        Ending::Unfit => unreachable!(),
        Ending::ReadFault => Status::ReadFault,
        Ending::WriteFault => Status::WriteFault,
        Ending::NoMemory => Status::NoMemory,
    }
}
