ghost use Rattle.std.specs.Prelude.{◌≡◌, IfOk};

use grove_names::Name;
use text_parts::NoMemory;

/// The name of a line's edge, and the indexes of the line's first byte and of its LF in the text, ordered by the name first. Many are sorted
/// at once, so the indexes are narrow.
#[derive(Clone, Copy, Debug, PartialEq, Eq, PartialOrd, Ord)]
pub(crate) struct NamedLine {
    pub(crate) name: Name,
    pub(crate) start: u32,
    pub(crate) end: u32,
}

impl NamedLine {
    /// The line that stands there, where its indexes fit.
    pub(crate) fn new(name: Name, start: usize, end: usize) -> Result<NamedLine, NoMemory>
        ensures name { IfOk result (λ line. line.name ≡ name) }
        ensures start { IfOk result (λ line. line.start ≡ start) }
        ensures end { IfOk result (λ line. line.end ≡ end) }
    {
        let Ok(start) = u32::try_from(start) else {
            return Err(NoMemory);
        };
        let Ok(end) = u32::try_from(end) else {
            return Err(NoMemory);
        };
        Ok(NamedLine { name, start, end })
    }
}
