ghost use Rattle.std.specs.Prelude.{◌≡◌, ◌<◌, ◌+◌, ◌^◌};
ghost use Rattle.graph_table.specs.Around.{no_ends, with_parent};

use crate::narrow_parents::NarrowParents;
use crate::parents::Parents;
use std::marker::Model;

/// The live edges from a vertex, of which just the last stands here, and those to it.
#[derive(Drop)]
pub(crate) struct Around {
    // One more than the index of the last live edge from the vertex, or zero where there is none.
    last: u32,
    parents: NarrowParents,
}

impl Model for Around {
    ghost use Rattle.graph_table.specs.Around.{Ends, told};

    ghost Value = { Ends };

    ghost view = { λ around. record { last = around.last; parents = told around.parents } };
}

impl Around {
    pub(crate) fn nothing() -> Around
        ensures { result ≡ no_ends }
    {
        Around {
            last: 0,
            parents: NarrowParents::Zero,
        }
    }

    /// One more than the index of the last live edge from the vertex, or zero where there is none.
    pub(crate) fn last(&self) -> u32
        ensures { result ≡ self.now.last }
    {
        self.last
    }

    pub(crate) fn set_last(&mut self, index: usize)
        requires { index + 1 < 2 ^ 32 }
        ensures last { self.new.last ≡ index + 1 }
        ensures parents { self.new.parents ≡ self.old.parents }
    {
        self.last = index as u32 + 1;
    }

    pub(crate) fn add_parent(&mut self, index: usize)
        requires { index + 1 < 2 ^ 32 }
        ensures last { self.new.last ≡ self.old.last }
        ensures parents { self.new.parents ≡ with_parent self.old.parents index }
    {
        self.parents = self.parents.with(index);
    }

    pub(crate) fn parents(&self) -> Parents
        ensures { result ≡ self.now.parents }
    {
        self.parents.tell()
    }
}
