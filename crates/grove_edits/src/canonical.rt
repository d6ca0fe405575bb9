ghost use Rattle.std.specs.Prelude.{◌≡◌};
ghost use Rattle.std.specs.List.Sorted.{IsSorted};
ghost use Rattle.grove_edits.specs.Edit.{edit_edge};
ghost use Rattle.grove_edits.specs.Graph.{begins_with, graph, is_same_edge, IsCanonical};

use crate::edit::Edit;

// Keeps the last edit of each edge. In a sorted list that is the greatest.
pub(crate) fn keep_last_of_each_edge(edits: &mut Vec<Edit>)
    requires { IsSorted ⟦<Edit as Ord>⟧.cmp edits.old.items }
    ensures { IsCanonical (graph edits.old.items) edits.new.items }
{
    let mut len = 0;
    for i in 0..edits.len() {
        if !begins_with_edge(&edits[i + 1..], &edits[i]) {
            edits[len] = edits[i];
            len += 1;
        }
    }
    edits.truncate(len);
}

// Whether the first of the edits has the same edge as this one.
fn begins_with_edge(edits: &[Edit], edit: &Edit) -> bool
    ensures { result ≡ begins_with (edit_edge edit.now) edits.now }
{
    match edits {
        [] => false,
        [first, ..] => have_same_edge(edit, first),
    }
}

// Nearly every edge has a name of its own, so no edge is made but of edits that share a name.
fn have_same_edge(a: &Edit, b: &Edit) -> bool
    ensures { result ≡ is_same_edge (edit_edge a.now) (edit_edge b.now) }
{
    a.name() == b.name() && a.edge() == b.edge()
}
