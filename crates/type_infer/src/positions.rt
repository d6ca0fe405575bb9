//! Which lines stand at the positions of each vertex of a tree. It goes over the nodes from the last to the first: behind a node come the
//! places right under it, in order.
ghost use Rattle.std.specs.Prelude.{◌≡◌, ℕ, ◌+◌, ◌*◌, ◌^◌, ◌<◌, length, drop, reverse, IfOk};
ghost use Rattle.std.specs.List.{slice_index_or, AllByRecursion};
ghost use Rattle.grove_terms.specs.Lent.{node_of, nodes_of};
ghost use Rattle.type_infer.specs.Rows.{place_list, ArePlacesOf};
ghost use Rattle.type_infer.specs.Walking.{places_under, heads, five};
ghost use Rattle.type_infer.specs.Positions.{row_at};

use crate::rows::{NOWHERE, Places};
use edit_table::LentCtor;
use grove_sorts::position_count;
use grove_terms::{LentNode, LentWhat};
use std::alloc::Global;
use text_parts::NoMemory;

// How many places stand right under a node.
fn places_under(node: &LentNode) -> u64
    ensures { result ≡ places_under (node_of node.now).what }
{
    match node.what() {
        LentWhat::Vertex(vertex) => match vertex.ctor {
            LentCtor::At(ctor) => position_count(ctor) as u64,
            LentCtor::Literal(_) => 0,
        },
        LentWhat::Conflict(_, count) => count,
        LentWhat::Hole(_) | LentWhat::MultiRef(_) | LentWhat::CycleRef(_) => 0,
    }
}

// The variable with an index among those that stand on a list, the last one first.
fn from_last(firsts: &[u32], index: usize) -> u32
    requires { index < 5 }
    ensures found { result ≡ slice_index_or (reverse firsts.now) index 0 }
    ensures within { (variables : ℕ) → 0 < variables → AllByRecursion (λ v. v < variables) firsts.now → result < variables }
{
    match firsts.len().checked_sub(index + 1) {
        Some(at) => firsts[at],
        None => 0,
    }
}

// The last five.
fn places_of(firsts: &[u32]) -> Places
    ensures places { place_list result ≡ five (reverse firsts.now) }
    ensures within { (variables : ℕ) → 0 < variables → AllByRecursion (λ v. v < variables) firsts.now → ArePlacesOf variables result }
{
    Places {
        first: from_last(firsts, 0),
        second: from_last(firsts, 1),
        third: from_last(firsts, 2),
        fourth: from_last(firsts, 3),
        fifth: from_last(firsts, 4),
    }
}

// Takes so many off the end.
fn take_off(firsts: &mut Vec<u32>, count: u64)
    ensures rest { reverse firsts.new.items ≡ drop count (reverse firsts.old.items) }
    ensures within { (variables : ℕ) → AllByRecursion (λ v. v < variables) firsts.old.items → AllByRecursion (λ v. v < variables) firsts.new.items }
{
    firsts.truncate(firsts.len().saturating_sub(count as usize));
}

/// The first variables of the lines at the positions of each line.
pub(crate) fn rows(alloc: Global, nodes: &[LentNode]) -> Result<Vec<Places>, NoMemory>
    requires { 3 * length nodes.now < 2 ^ 32 }
    ensures count { IfOk result (λ rows. length rows.items ≡ length nodes.now) }
    ensures places { IfOk result (λ rows. (i : ℕ) → i < length nodes.now
        → place_list (row_at rows.items i) ≡ five (heads (drop (i + 1) (nodes_of nodes.now)) (i + 1))) }
    ensures within { IfOk result (λ rows. (i : ℕ) → i < length nodes.now → ArePlacesOf (3 * length nodes.now) (row_at rows.items i)) }
{
    let mut rows = Vec::new(alloc);
    rows.resize(nodes.len(), NOWHERE)?;
    let mut firsts = Vec::new(alloc);
    let mut line = nodes.len();
    while line > 0 {
        line -= 1;
        rows[line] = places_of(&firsts);
        take_off(&mut firsts, places_under(&nodes[line]));
        firsts.push(3 * line as u32)?;
    }
    Ok(rows)
}
