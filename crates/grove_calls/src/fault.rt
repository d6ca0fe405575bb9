use edit_text::LineFault;
use session_script::ScriptKind;

/// What is wrong with the first line of the input without a reading.
#[derive(Clone, Copy, Debug, PartialEq, Eq)]
pub enum Fault {
    Syntax,
    BadVertex,
    NoPosition,
    WrongSort,
    /// A line of this form has no place here in a session.
    OutOfPlace,
    /// It names a replica that is not declared.
    UnknownReplica,
    /// It declares a replica again.
    RepeatedReplica,
    /// Its author is not declared.
    UnknownAuthor,
    /// It declares an author again.
    RepeatedAuthor,
    /// It is one more than a session may have, or sends beyond the limits.
    TooMany,
    /// The input ends behind a line that no LF ends.
    Rest,
    /// A session ends before a replica is declared, or in a block.
    Unended,
}

impl Fault {
    ghost use Rattle.grove_calls.specs.FaultOf.{fault_word};
    ghost use Rattle.std.specs.Prelude.{◌≡◌};

    /// Its name in a fault line.
    pub(crate) fn word(self) -> &'static [u8]
        ensures { result.now ≡ fault_word self }
    {
        match self {
            Fault::Syntax => b"syntax",
            Fault::BadVertex => b"bad-vertex",
            Fault::NoPosition => b"no-position",
            Fault::WrongSort => b"wrong-sort",
            Fault::OutOfPlace => b"out-of-place",
            Fault::UnknownReplica => b"unknown-replica",
            Fault::RepeatedReplica => b"repeated-replica",
            Fault::UnknownAuthor => b"unknown-author",
            Fault::RepeatedAuthor => b"repeated-author",
            Fault::TooMany => b"too-many",
            Fault::Rest => b"rest",
            Fault::Unended => b"unended",
        }
    }
}

impl From<LineFault> for Fault {
    ghost use Rattle.grove_calls.specs.FaultOf.{fault_of_line};
    ghost use Rattle.std.specs.Prelude.{◌≡◌};

    ghost from_gives = { λ line fault. fault ≡ fault_of_line line };

    fn from(fault: LineFault) -> Fault {
        Fault::from(ScriptKind::from(fault))
    }
}

impl From<ScriptKind> for Fault {
    ghost use Rattle.grove_calls.specs.FaultOf.{fault_of_kind};
    ghost use Rattle.std.specs.Prelude.{◌≡◌};

    ghost from_gives = { λ kind fault. fault ≡ fault_of_kind kind };

    fn from(kind: ScriptKind) -> Fault {
        match kind {
            ScriptKind::Syntax => Fault::Syntax,
            ScriptKind::BadVertex => Fault::BadVertex,
            ScriptKind::NoPosition => Fault::NoPosition,
            ScriptKind::WrongSort => Fault::WrongSort,
            ScriptKind::OutOfPlace => Fault::OutOfPlace,
            ScriptKind::UnknownReplica => Fault::UnknownReplica,
            ScriptKind::RepeatedReplica => Fault::RepeatedReplica,
            ScriptKind::UnknownAuthor => Fault::UnknownAuthor,
            ScriptKind::RepeatedAuthor => Fault::RepeatedAuthor,
            ScriptKind::TooMany => Fault::TooMany,
            ScriptKind::Rest => Fault::Rest,
            ScriptKind::Unended => Fault::Unended,
        }
    }
}
