ghost use Rattle.std.specs.Ordering.{is_gt};
ghost use Rattle.std.specs.Prelude.{◌≡◌, if◌then◌else◌};
ghost use Rattle.grove_edits.specs.declared.vertex.Vertex.{Vertex};
ghost use Rattle.grove_edits.specs.Vertex.{is_same_vertex};
ghost use Rattle.mark_store.specs.Places.{HasRoom, KeepsRoom, holds};
ghost use Rattle.mark_incremental.specs.Rooting.{IsLeastOf, IsChangedRoot};

use crate::passing::Ends;
use graph_words::lesser;
use grove_edits::Vertex;
use mark_store::VertexMap;

// The least of a vertex and some others.
fn least_of(first: &Vertex, others: &[Vertex]) -> Vertex
    ensures { IsLeastOf first.now others.now result }
{
    let mut least = *first;
    for vertex in others {
        least = lesser(&least, vertex);
    }
    least
}

/// The vertex that became the root of a cycle, or ceased to be one, by an edit of an edge to this target, and whether it is one now.
/// It is told by the walks up from the target, of which one comes back.
pub(crate) fn changed_root(target: &Vertex, before: &Ends, after: &Ends) -> Option<(Vertex, bool)>
    ensures { IsChangedRoot target.now before.now after.now result }
{
    match (before.target.comes_back, after.target.comes_back) {
        (false, false) | (true, true) => None,
        (false, true) => Some((least_of(target, &after.target.vertices), true)),
        (true, false) => Some((least_of(target, &before.target.vertices), false)),
    }
}

/// Makes a vertex, for which there is room, the root of a cycle, or no root.
pub(crate) fn set_root(roots: &mut VertexMap<bool>, root: &Vertex, is_root: bool)
    requires { HasRoom roots.old root.now }
    ensures set { (v : Vertex) → holds roots.new v ≡ (if is_same_vertex root.now v then is_root else holds roots.old v) }
    ensures room_stays { KeepsRoom roots.old roots.new }
{
    if is_root {
        roots.set(root, true);
    } else {
        roots.clear(root);
    }
}
