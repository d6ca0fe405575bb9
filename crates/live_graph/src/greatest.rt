ghost use Rattle.std.specs.Prelude.{◌≡◌, length};
ghost use Rattle.std.specs.List.{list_any};
ghost use Rattle.live_graph.specs.ByName.{is_named, HasEdgeNames};
ghost use Rattle.live_graph.specs.Greatest.{IsNameOfEnd};
ghost use Rattle.graph_words.specs.Names.{IsGreatest, IsNameOfEdge};
ghost use Rattle.live_graph.specs.Uses.{is_vertex_named, AreUses, HasVertexNames};

use crate::by_name::is_named;
use crate::vertices::is_vertex_named;
use edge_numbers::EdgeNumbers;
use grove_names::Name;
use numbers_by_name::NumbersByName;

// Whether one of the numbers is that of an edge with a name that is not Absent.
fn has_named_edge(edges: &EdgeNumbers, name: Name, numbers: &[u32]) -> bool
    ensures { result ≡ list_any (is_named edges.now name) numbers.now }
{
    for number in numbers {
        if is_named(edges, name, *number as usize) {
            return true;
        }
    }
    false
}

// Whether one of the numbers is that of a vertex with a name that edges use.
fn has_named_vertex(edges: &EdgeNumbers, uses: &[u64], name: Name, numbers: &[u32]) -> bool
    requires { AreUses edges.now uses.now }
    ensures { result ≡ list_any (is_vertex_named edges.now uses.now name) numbers.now }
{
    for number in numbers {
        if is_vertex_named(edges, uses, name, *number as usize) {
            return true;
        }
    }
    false
}

/// The greatest counter of an author in the names of the edges that are not Absent. The author's counters are read from the greatest one
/// down, past those that are only room, so the graph is not scanned.
pub(crate) fn greatest_of_edges(edges: &EdgeNumbers, names: &NumbersByName, author: u32) -> u64
    requires { HasEdgeNames edges.now names.now }
    ensures { IsGreatest (IsNameOfEdge edges.now.entries) author result }
{
    // No edge has two numbers.
    let _edges = edges.edge_count();
    let mut before = None;
    while let Some((counter, numbers)) = names.last_before(author, before) {
        if has_named_edge(edges, Name { author, counter }, numbers) {
            return counter;
        }
        before = Some(counter);
    }
    0
}

/// The same in the names of the ends of these edges.
pub(crate) fn greatest_of_vertices(
    edges: &EdgeNumbers,
    uses: &[u64],
    names: &NumbersByName,
    author: u32,
) -> u64
    requires uses { AreUses edges.now uses.now }
    requires names { HasVertexNames edges.now (length uses.now) names.now }
    ensures { IsGreatest (IsNameOfEnd edges.now.entries) author result }
{
    // Nothing has two numbers.
    let _edges = edges.edge_count();
    let _vertices = edges.vertex_count();
    let mut before = None;
    while let Some((counter, numbers)) = names.last_before(author, before) {
        if has_named_vertex(edges, uses, Name { author, counter }, numbers) {
            return counter;
        }
        before = Some(counter);
    }
    0
}
