use grove_undo::Change;

/// An action that an author did, or what undid one, by what it changed.
#[derive(Debug, Drop)]
pub struct Deed {
    pub author: u32,
    pub change: Change,
}
