ghost use Rattle.std.specs.Prelude.{◌↔◌, IfOk, IsTrue};
ghost use Rattle.type_core.specs.TypeTable.{KeepsTypes};
ghost use Rattle.ctx_table.specs.CtxTable.{KeepsContexts};
ghost use Rattle.grove_terms.specs.Sorted.{IsSortedTree};
ghost use Rattle.plain_typing.specs.Typed.{IsTypedTree};

use crate::walking::{Walk, take};
use ctx_table::CtxTable;
use grove_terms::Tree;
use std::alloc::Global;
use text_parts::NoMemory;
use type_core::TypeTable;

/// Whether a well-sorted tree is typed. The numbers of both tables keep their meaning, also where memory runs out.
pub fn is_typed(
    alloc: Global,
    tree: &Tree,
    types: &mut TypeTable,
    ctxs: &mut CtxTable,
) -> Result<bool, NoMemory>
    requires sorted { IsSortedTree tree.now }
    ensures typed { IfOk result (λ typed. IsTrue typed ↔ IsTypedTree tree.now) }
    ensures types { KeepsTypes types.old types.new }
    ensures contexts { KeepsContexts ctxs.old ctxs.new }
{
    let mut walk = Walk {
        frames: Vec::new(alloc),
        has_mark: false,
    };
    for node in tree.as_slice() {
        take(alloc, types, ctxs, &mut walk, node)?;
    }
    Ok(!walk.has_mark)
}
