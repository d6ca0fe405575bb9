ghost use Rattle.std.specs.Prelude.{◌≡◌, ◌+◌, ◌≤◌, ℕ, IfOk, OnOk};
ghost use Rattle.edge_numbers.specs.Numbered.{BeginsWith, HasEndsIn, IsNumberOfVertex};
ghost use Rattle.edge_lists.specs.Lists.{listed_at, places_at, HasVertex};
ghost use Rattle.live_graph.specs.Around.{IsListed, HasPlace, KeepsLists, source_of, target_of};

use edge_lists::{ByEdge, ByPosition, EdgeLists, ListOrder};
use edge_numbers::EdgeNumbers;
use grove_edits::Edge;
use text_parts::NoMemory;

// Lists for vertices up to one. A vertex may have a number long before an edge wants a list of it.
fn add_lists<O: ListOrder>(lists: &mut EdgeLists<O>, vertex: usize) -> Result<(), NoMemory>
    ensures lists { (n : ℕ) → listed_at lists.new n ≡ listed_at lists.old n }
    ensures vertex { OnOk result (HasVertex lists.new vertex) }
{
    while lists.vertex_count() <= vertex {
        lists.add_vertex()?;
    }
    Ok(())
}

// One place more in the list of a vertex.
fn make_place<O: ListOrder>(lists: &mut EdgeLists<O>, vertex: usize) -> Result<(), NoMemory>
    ensures kept { KeepsLists lists.old lists.new }
    ensures place { OnOk result (places_at lists.old vertex + 1 ≤ places_at lists.new vertex) }
{
    add_lists(lists, vertex)?;
    lists.promise(vertex)?;
    Ok(())
}

/// The numbers of the ends of an edge, which get the next ones where they have none, and a place at each for one edge more.
pub(crate) fn make_places(
    edges: &mut EdgeNumbers,
    children: &mut EdgeLists<ByPosition>,
    parents: &mut EdgeLists<ByEdge>,
    edge: &Edge,
) -> Result<(usize, usize), NoMemory>
    requires { IsListed edges.old children.old parents.old }
    ensures listed { IsListed edges.new children.new parents.new }
    ensures entries { edges.new.entries ≡ edges.old.entries }
    ensures vertices { BeginsWith edges.new.vertices edges.old.vertices }
    ensures ends { OnOk result (HasEndsIn edges.new.vertices edge.now) }
    ensures numbers { IfOk result (λ ends. IsNumberOfVertex edges.new edge.now.source ends.0 × IsNumberOfVertex edges.new edge.now.target ends.1) }
    ensures source { OnOk result (HasPlace source_of edges.new children.new edge.now) }
    ensures target { OnOk result (HasPlace target_of edges.new parents.new edge.now) }
{
    // The ends of what has a number are among the vertices.
    let _edges = edges.edge_count();
    let source = edges.enter_vertex(&edge.source)?;
    let target = edges.enter_vertex(&edge.target)?;
    // No vertex has two numbers.
    let _vertices = edges.vertex_count();
    make_place(children, source)?;
    make_place(parents, target)?;
    Ok((source, target))
}
