use crate::named_line::NamedLine;
use grove_edits::Edit;

/// An edit and the line that spells it, ordered by the edit's edge first: of the lines of one edge a deletion's comes last.
#[derive(Clone, Copy, Debug, PartialEq, Eq, PartialOrd, Ord)]
pub(crate) struct EditLine {
    pub(crate) edit: Edit,
    pub(crate) line: NamedLine,
}
