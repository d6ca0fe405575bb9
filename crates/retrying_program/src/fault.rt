use edit_stream::{FeedFault, FinishFault};
use grove_io::{Failed, InputFault};
use std::alloc::{AllocError, AllocFailed};

/// Why not all edits were taken and told.
#[derive(Clone, Copy, Debug, PartialEq, Eq)]
pub(crate) enum Fault {
    /// A call found no memory and left something else than there was.
    Changed,
    /// A line of the input is no edit.
    Malformed,
    TooLong,
    ReadFault,
    WriteFault,
    /// Memory ran out twice in one call, or elsewhere.
    NoMemory,
}

/// The number that the program ends with. What `grove` ends with too has the number that it has there.
pub(crate) fn exit_status(fault: Fault) -> u8 {
    match fault {
        Fault::Changed => 1,
        Fault::Malformed => 3,
        Fault::TooLong => 4,
        Fault::ReadFault => 5,
        Fault::WriteFault => 6,
        Fault::NoMemory => 7,
    }
}

impl From<InputFault> for Fault {
    fn from(fault: InputFault) -> Fault {
        match fault {
            InputFault::TooLong => Fault::TooLong,
            InputFault::ReadFault => Fault::ReadFault,
            InputFault::NoMemory => Fault::NoMemory,
        }
    }
}

impl From<FeedFault> for Fault {
    fn from(fault: FeedFault) -> Fault {
        match fault {
            FeedFault::Malformed { .. } => Fault::Malformed,
            FeedFault::NoMemory => Fault::NoMemory,
        }
    }
}

impl From<FinishFault> for Fault {
    fn from(_fault: FinishFault) -> Fault {
        Fault::Malformed
    }
}

impl From<Failed> for Fault {
    fn from(_error: Failed) -> Fault {
        Fault::WriteFault
    }
}

impl From<AllocError> for Fault {
    fn from(_error: AllocError) -> Fault {
        Fault::NoMemory
    }
}

impl<T: Drop> From<AllocFailed<T>> for Fault {
    fn from(_error: AllocFailed<T>) -> Fault {
        Fault::NoMemory
    }
}

impl From<replica_core::NoMemory> for Fault {
    fn from(_error: replica_core::NoMemory) -> Fault {
        Fault::NoMemory
    }
}
