ghost use Rattle.std.specs.Prelude.{◌≡◌};
ghost use Rattle.edit_ranges.specs.Lacking.{told_by};

use grove_edits::EditKind;

/// What a summary tells of a name. What it tells of `Named` comes first.
#[derive(Clone, Copy, Debug, PartialEq, Eq, PartialOrd, Ord)]
pub enum Told {
    /// An edge has the name, or a vertex at an end of one.
    Named,
    /// The edge with the name is deleted.
    Deleted,
}

/// What is told of the name of an edit's edge once the edit is taken.
pub(crate) fn told_by(kind: EditKind) -> Told
    ensures { result ≡ told_by kind }
{
    match kind {
        EditKind::Insert => Told::Named,
        EditKind::Delete => Told::Deleted,
    }
}
