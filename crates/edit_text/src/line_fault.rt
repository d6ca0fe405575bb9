ghost use Rattle.std.specs.Prelude.{◌≡◌};

use grove_edits::EdgeFault;

/// What is wrong with a line: the first that applies.
#[derive(Clone, Copy, Debug, PartialEq, Eq)]
pub enum LineFault {
    /// It has not the form of an edit's line: an unknown word or a number out of range belong here too.
    Syntax,
    /// The edge has no author's name, or one of its ends is not well formed.
    BadVertex,
    /// The source's constructor has no such position.
    NoPosition,
    /// The position wants children of another sort.
    WrongSort,
}

impl From<EdgeFault> for LineFault {
    ghost use Rattle.edit_text.specs.FaultOfEdge.{line_fault_of};

    ghost from_gives = { λ fault line. line ≡ line_fault_of fault };

    fn from(fault: EdgeFault) -> LineFault {
        match fault {
            EdgeFault::BadVertex => LineFault::BadVertex,
            EdgeFault::NoPosition => LineFault::NoPosition,
            EdgeFault::WrongSort => LineFault::WrongSort,
        }
    }
}
