ghost use Rattle.std.specs.Prelude.{◌≡◌, ◌≤◌, ◌&&◌, ◌||◌, Bool, true, length};
ghost use Rattle.std.specs.List.{list_any};
ghost use Rattle.grove_edits.specs.declared.vertex.Vertex.{Vertex};
ghost use Rattle.grove_edits.specs.Vertex.{is_same_vertex, root};
ghost use Rattle.numbers_by_name.specs.ByName.{is_same_name};
ghost use Rattle.graph_words.specs.declared.named.Named.TheVariants.{One, More};
ghost use Rattle.live_graph.specs.Uses.{is_vertex_named, is_named_vertex};
ghost use Rattle.graph_words.specs.Named.{AreLeastTwo};

use crate::by_name::is_same_name;
use edge_numbers::EdgeNumbers;
use graph_words::Named;
use grove_edits::{Vertex, compare_vertices};
use grove_names::Name;
use std::cmp::Ordering;

fn both(a: Vertex, b: Vertex) -> Named
    ensures { (has : Vertex → Bool) → AreLeastTwo (λ v. has v ≡ true) (One a) → AreLeastTwo (λ v. (has v || is_same_vertex b v) ≡ true) result }
{
    match compare_vertices(&b, &a) {
        Ordering::Less => Named::More(b, a),
        Ordering::Equal => Named::One(a),
        Ordering::Greater => Named::More(a, b),
    }
}

// The least two of three vertices, of which the first two are in order.
fn of_three(a: Vertex, b: Vertex, c: Vertex) -> Named
    ensures { (has : Vertex → Bool) → AreLeastTwo (λ v. has v ≡ true) (More a b) → AreLeastTwo (λ v. (has v || is_same_vertex c v) ≡ true) result }
{
    match compare_vertices(&c, &a) {
        Ordering::Less => Named::More(c, a),
        Ordering::Equal => Named::More(a, b),
        Ordering::Greater => match compare_vertices(&c, &b) {
            Ordering::Less => Named::More(a, c),
            Ordering::Equal | Ordering::Greater => Named::More(a, b),
        },
    }
}

// The least two of some vertices and one more.
fn with_vertex(found: Named, vertex: Vertex) -> Named
    ensures { (has : Vertex → Bool) → AreLeastTwo (λ v. has v ≡ true) found → AreLeastTwo (λ v. (has v || is_same_vertex vertex v) ≡ true) result }
{
    match found {
        Named::Zero => Named::One(vertex),
        Named::One(least) => both(least, vertex),
        Named::More(least, second) => of_three(least, second, vertex),
    }
}

/// Whether a number is that of a vertex with a name that edges use.
pub(crate) fn is_vertex_named(edges: &EdgeNumbers, uses: &[u64], name: Name, number: usize) -> bool
    requires { length uses.now ≤ length edges.now.vertices }
    ensures { result ≡ is_vertex_named edges.now uses.now name number }
{
    number < uses.len() && uses[number] > 0 && is_same_name(edges.vertex(number).name, name)
}

fn with_number(found: Named, edges: &EdgeNumbers, uses: &[u64], name: Name, number: usize) -> Named
    requires { length uses.now ≤ length edges.now.vertices }
    ensures { (has : Vertex → Bool) → AreLeastTwo (λ v. has v ≡ true) found → AreLeastTwo (λ v. (has v || is_named_vertex edges.now uses.now name v number) ≡ true) result }
{
    if !is_vertex_named(edges, uses, name, number) {
        return found;
    }
    with_vertex(found, *edges.vertex(number))
}

// The vertex `0.0 root`, where it has a name.
fn root_named(name: Name) -> Named
    ensures { AreLeastTwo (λ v. (is_same_name root.name name && is_same_vertex root v) ≡ true) result }
{
    if is_same_name(Vertex::ROOT.name, name) {
        Named::One(Vertex::ROOT)
    } else {
        Named::Zero
    }
}

/// The least two of the vertices with these numbers that have a name, and of the vertex `0.0 root` where it has the name.
pub(crate) fn least_named(edges: &EdgeNumbers, uses: &[u64], name: Name, numbers: &[u32]) -> Named
    requires { length uses.now ≤ length edges.now.vertices }
    ensures { AreLeastTwo (λ v. ((is_same_name root.name name && is_same_vertex root v) || list_any (is_named_vertex edges.now uses.now name v) numbers.now) ≡ true) result }
{
    let mut found = root_named(name);
    for number in numbers {
        found = with_number(found, edges, uses, name, *number as usize);
    }
    found
}
