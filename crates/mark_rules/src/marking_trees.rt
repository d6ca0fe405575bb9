ghost use Rattle.std.specs.Prelude.{IfOk};
ghost use Rattle.type_core.specs.TypeTable.{KeepsTypes};
ghost use Rattle.ctx_table.specs.CtxTable.{KeepsContexts};
ghost use Rattle.marking.specs.Grove.{IsMarkedTree};
ghost use Rattle.marking.specs.Reading.{meant_nodes};
ghost use Rattle.marking.specs.Numbers.{AreMarkedNodesOf};
ghost use Rattle.grove_terms.specs.Sorted.{IsSortedTree};

use crate::open_frames::OpenFrames;
use crate::taking::{Walk, take};
use ctx_table::CtxTable;
use grove_terms::Tree;
use marking::MarkedTree;
use std::alloc::Global;
use text_parts::NoMemory;
use type_core::TypeTable;

/// The nodes of a well-sorted tree with what marking adds to them. The numbers of both tables keep their meaning, also where memory
/// runs out. The room is kept for the next tree; where memory runs out it is lost, and the next tree makes it anew.
pub fn mark_tree<'n, 't>(
    alloc: Global,
    tree: &'n Tree<'t>,
    types: &mut TypeTable,
    ctxs: &mut CtxTable,
    room: &mut OpenFrames<'t>,
) -> Result<MarkedTree<'n, 't>, NoMemory>
    requires sorted { IsSortedTree tree.now }
    ensures marked { IfOk result (λ marked. IsMarkedTree tree.now (meant_nodes types.new marked)) }
    ensures numbers { IfOk result (λ marked. AreMarkedNodesOf types.new marked) }
    ensures types { KeepsTypes types.old types.new }
    ensures contexts { KeepsContexts ctxs.old ctxs.new }
{
    let nodes = tree.as_slice();
    let mut walk = Walk {
        frames: room.take_out(alloc),
        added: Vec::with_capacity(alloc, nodes.len())?,
    };
    for node in nodes {
        take(alloc, types, ctxs, &mut walk, node)?;
    }
    let Walk { frames, added } = walk;
    room.put_back(frames);
    Ok(MarkedTree::new(nodes, added))
}
