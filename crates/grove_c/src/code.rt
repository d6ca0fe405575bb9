// How calls end, by the numbers that C has for it. They stay for ever.

/// The call did what it is for.
pub(crate) const DONE: u32 = 0;

/// The graph does not allow the action, or its undoing.
pub(crate) const REFUSED: u32 = 1;

/// There is no text of this number.
pub(crate) const WRONG_CALL: u32 = 2;

/// The bytes spell no edits, no action or no vertex.
pub(crate) const MALFORMED: u32 = 3;

/// The room is too short.
pub(crate) const NO_ROOM: u32 = 6;

/// Memory ran out.
pub(crate) const NO_MEMORY: u32 = 7;

/// The graph has no such vertex.
pub(crate) const NO_VERTEX: u32 = 8;

/// No author has this number.
pub(crate) const NO_AUTHOR: u32 = 9;

/// The author has nothing to undo, or nothing to do again.
pub(crate) const NOTHING: u32 = 10;
