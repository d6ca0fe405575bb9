ghost use Rattle.std.specs.Prelude.{◌≡◌};
ghost use Rattle.grove_editor.specs.declared.vertex_fault.VertexFault.TheVariants.{NoMemory as no_memory};

use std::alloc::AllocError;
use text_parts::NoMemory;

/// Why the record of a vertex was not written.
#[derive(Clone, Copy, Debug, PartialEq, Eq)]
pub enum VertexFault {
    /// The words spell no vertex.
    Syntax,
    /// The graph has no such vertex.
    NoVertex,
    /// Memory ran out.
    NoMemory,
}

impl From<NoMemory> for VertexFault {
    ghost from_gives = { λ _ fault. fault ≡ no_memory };

    fn from(_error: NoMemory) -> VertexFault {
        VertexFault::NoMemory
    }
}

impl From<AllocError> for VertexFault {
    ghost from_gives = { λ _ fault. fault ≡ no_memory };

    fn from(_error: AllocError) -> VertexFault {
        VertexFault::NoMemory
    }
}
