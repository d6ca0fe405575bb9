use grove_edits::EditKind;
use grove_names::Name;
use grove_sorts::Position;

/// An edit in 32 bytes: its ends are told by the numbers of their keys.
#[derive(Clone, Copy)]
pub(crate) struct Record {
    pub(crate) name: Name,
    pub(crate) source: u32,
    pub(crate) target: u32,
    pub(crate) position: Position,
    pub(crate) kind: EditKind,
}
