ghost use Rattle.std.specs.Prelude.{◌≡◌, ◌↔◌, ◌≤◌, ◌∷◌, length, IsTrue, List};
ghost use Rattle.grove_edits.specs.declared.vertex.Vertex.{Vertex};
ghost use Rattle.grove_edits.specs.Graph.{begins_with, graph, IsCanonical};
ghost use Rattle.edit_table.specs.Records.{edge_of, edits_of, AreInOrder, AreOf, HaveSameParts};

use crate::record::Record;

/// Keeps the last record of each edge, which is the greatest, since the records are in order.
pub(crate) fn keep_last_of_each_edge(records: &mut Vec<Record>)
    ensures canonical { (vertices : List Vertex) → AreInOrder vertices records.old.items
        → IsCanonical (graph (edits_of vertices records.old.items)) (edits_of vertices records.new.items) }
    ensures records { (vertices : List Vertex) → AreInOrder vertices records.old.items → AreOf vertices records.new.items }
    ensures fewer { length records.new.items ≤ length records.old.items }
{
    let mut len = 0;
    for i in 0..records.len() {
        if !begins_with_edge(&records[i + 1..], &records[i]) {
            records[len] = records[i];
            len += 1;
        }
    }
    records.truncate(len);
}

// Whether the first of the records has the same edge as this one.
fn begins_with_edge(records: &[Record], edit: &Record) -> bool
    ensures { (vertices : List Vertex) → AreOf vertices (edit.now ∷ records.now)
        → result ≡ begins_with (edge_of vertices edit.now) (edits_of vertices records.now) }
{
    match records.first() {
        Some(first) => have_same_edge(edit, first),
        None => false,
    }
}

// A vertex has one number, so none is looked up.
fn have_same_edge(a: &Record, b: &Record) -> bool
    ensures { IsTrue result ↔ HaveSameParts a.now b.now }
{
    a.name == b.name && a.source == b.source && a.position == b.position && a.target == b.target
}
