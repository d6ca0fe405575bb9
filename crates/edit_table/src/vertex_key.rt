use grove_names::Name;
use std::hash::{Hash, Hasher};

/// A constructor in a few bytes: a literal that is short, or another constructor by its number among those that were met.
#[derive(Clone, Copy, PartialEq, Eq, Hash)]
pub(crate) enum CtorKey {
    At(u32),
    Short(u32),
}

/// A vertex in 24 bytes.
#[derive(Clone, Copy, PartialEq, Eq)]
pub(crate) struct VertexKey {
    pub(crate) name: Name,
    pub(crate) ctor: CtorKey,
}

/// No vertex has this number.
pub(crate) const NONE: u32 = u32::MAX;

// How many names that follow each other are hashed alike.
const NEIGHBOURS: u64 = 16;

/// Whether two names are so near each other that vertices of one constructor with them are hashed alike.
#[inline(always)]
pub(crate) fn are_neighbours(a: &Name, b: &Name) -> bool {
    a.author == b.author && a.counter / NEIGHBOURS == b.counter / NEIGHBOURS
}

// Vertices whose names follow each other are mostly looked up one after the other, so those of one constructor are hashed alike: a
// table finds them in memory that was just read. Whoever chooses the vertices gets no more of one hash than these few.
impl Hash for VertexKey {
    ghost use Rattle.std.specs.Prelude.{◌++◌, ◌/◌};
    ghost use Rattle.std.proofs.Common.{rules};
    ghost use Rattle.std.specs.Hash as fed;
    ghost use Rattle.std.specs.Cmp.Rules.{comparing, hashing};

    ghost hash_input = { λ v. fed.u32 v.name.author ++ fed.u64 (v.name.counter / 16) ++ ⟦<CtorKey as Hash>⟧.hash_input v.ctor };

    ghost respects_eq = { Prim.search (hashing, rules) };

    fn hash<H: Hasher>(&self, state: &mut H) {
        self.name.author.hash(state);
        (self.name.counter / NEIGHBOURS).hash(state);
        self.ctor.hash(state);
    }
}
