ghost use Rattle.std.specs.Prelude.{◌≡◌, ◌<◌, ◌+◌, ◌^◌};
ghost use Rattle.graph_table.specs.Around.{told, with_parent};

use crate::parents::Parents;

/// The live edges to a vertex, as `Parents` tells them, with their indices in 32 bits.
#[derive(Clone, Copy)]
pub(crate) enum NarrowParents {
    Zero,
    One(u32),
    More(u32, u32),
}

impl NarrowParents {
    pub(crate) fn tell(self) -> Parents
        ensures { result ≡ told self }
    {
        match self {
            NarrowParents::Zero => Parents::Zero,
            NarrowParents::One(first) => Parents::One(first as usize),
            NarrowParents::More(first, second) => Parents::More(first as usize, second as usize),
        }
    }

    /// With one more edge, which comes after the others.
    pub(crate) fn with(self, index: usize) -> NarrowParents
        requires { index + 1 < 2 ^ 32 }
        ensures { told result ≡ with_parent (told self) index }
    {
        match self {
            NarrowParents::Zero => NarrowParents::One(index as u32),
            NarrowParents::One(first) => NarrowParents::More(first, index as u32),
            NarrowParents::More(first, second) => NarrowParents::More(first, second),
        }
    }
}
