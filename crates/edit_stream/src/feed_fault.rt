ghost use Rattle.std.specs.Prelude.{◌≡◌};

use edit_text::LineFault;
use std::alloc::AllocError;
use text_parts::NoMemory;

/// Why a piece was not taken.
#[derive(Clone, Copy, Debug, PartialEq, Eq)]
pub enum FeedFault {
    /// The first ended line, counted from 1, that spells no edit, and its first fault.
    Malformed { line: u64, fault: LineFault },
    /// Memory ran out.
    NoMemory,
}

impl From<NoMemory> for FeedFault {
    ghost use Rattle.edit_stream.specs.declared.feed_fault.FeedFault.TheVariants.{NoMemory};

    ghost from_gives = { λ _ fault. fault ≡ NoMemory };

    fn from(_error: NoMemory) -> FeedFault {
        FeedFault::NoMemory
    }
}

impl From<AllocError> for FeedFault {
    ghost use Rattle.edit_stream.specs.declared.feed_fault.FeedFault.TheVariants.{NoMemory};

    ghost from_gives = { λ _ fault. fault ≡ NoMemory };

    fn from(_error: AllocError) -> FeedFault {
        FeedFault::NoMemory
    }
}
