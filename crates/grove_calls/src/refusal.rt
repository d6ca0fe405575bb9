ghost use Rattle.std.specs.Prelude.{◌≡◌};
ghost use Rattle.grove_calls.specs.RefusalOf.{refusal_of_text, refusal_of_script};
ghost use Rattle.grove_calls.specs.declared.refusal.Refusal.TheVariants.{NoMemory};

use crate::fault::Fault;
use edit_text::TextFault;
use session_script::ScriptFault;
use std::alloc::AllocError;

/// Why a command has no answer to a text.
#[derive(Clone, Copy, Debug, PartialEq, Eq)]
pub enum Refusal {
    /// The first line without a reading, counted from 1, and its first fault.
    Malformed { line: u64, fault: Fault },
    /// It has a reading, of which the command makes nothing.
    Unfit,
    /// Memory ran out.
    NoMemory,
}

impl From<TextFault> for Refusal {
    ghost from_gives = { λ fault refusal. refusal ≡ refusal_of_text fault };

    fn from(fault: TextFault) -> Refusal {
        match fault {
            TextFault::Malformed { line, fault } => Refusal::Malformed {
                line,
                fault: Fault::from(fault),
            },
            TextFault::Rest { line } => Refusal::Malformed {
                line,
                fault: Fault::Rest,
            },
            TextFault::NoMemory => Refusal::NoMemory,
        }
    }
}

impl From<ScriptFault> for Refusal {
    ghost from_gives = { λ fault refusal. refusal ≡ refusal_of_script fault };

    fn from(fault: ScriptFault) -> Refusal {
        match fault {
            ScriptFault::Bad { line, kind } => Refusal::Malformed {
                line,
                fault: Fault::from(kind),
            },
            ScriptFault::NoMemory => Refusal::NoMemory,
        }
    }
}

impl From<AllocError> for Refusal {
    ghost from_gives = { λ _ refusal. refusal ≡ NoMemory };

    fn from(_error: AllocError) -> Refusal {
        Refusal::NoMemory
    }
}

impl From<text_parts::NoMemory> for Refusal {
    ghost from_gives = { λ _ refusal. refusal ≡ NoMemory };

    fn from(_error: text_parts::NoMemory) -> Refusal {
        Refusal::NoMemory
    }
}
