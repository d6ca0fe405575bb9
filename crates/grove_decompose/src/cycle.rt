ghost use Rattle.std.specs.Prelude.{◌≡◌, true, if◌then◌else◌};
ghost use Rattle.std.specs.List.{IsDistinct};
ghost use Rattle.std.specs.Ordering.{is_gt};
ghost use Rattle.grove_edits.specs.Vertex.{vertex_cmp, is_same_vertex};
ghost use Rattle.graph_words.specs.Class.{is_cycle_root};
ghost use Rattle.graph_words.specs.Cycle.{is_on_cycle, leads_to};
ghost use Rattle.graph_table.specs.Table.{live, vertex_at, IsNumber};

use crate::above::number_above;
use edit_table::compare_lent;
use graph_table::GraphTable;
use std::cmp::Ordering;

/// The number of the lesser of two vertices, and the first of two that are one.
fn lesser(table: &GraphTable, a: usize, b: usize) -> usize
    requires a { IsNumber table.now a }
    requires b { IsNumber table.now b }
    ensures number { IsNumber table.now result }
    ensures lesser { vertex_at table.now result ≡ (if is_gt (vertex_cmp (vertex_at table.now a) (vertex_at table.now b)) then vertex_at table.now b else vertex_at table.now a) }
{
    match compare_lent(&table.vertex(a).lent(), &table.vertex(b).lent()) {
        Ordering::Less | Ordering::Equal => a,
        Ordering::Greater => b,
    }
}

/// The root of the cycle on which a vertex stands, by going round once.
pub(crate) fn root_of_cycle(table: &GraphTable, entry: usize) -> usize
    requires once { IsDistinct is_same_vertex table.now.vertices }
    requires entry { IsNumber table.now entry }
    requires cycle { is_on_cycle (live table.now) (vertex_at table.now entry) ≡ true }
    ensures number { IsNumber table.now result }
    ensures root { is_cycle_root (live table.now) (vertex_at table.now result) ≡ true }
    ensures above { leads_to (live table.now) (vertex_at table.now entry) (vertex_at table.now result) ≡ true }
{
    let mut least = entry;
    let mut at = entry;
    while let Some(above) = number_above(table, at) {
        if above == entry {
            return least;
        }
        least = lesser(table, least, above);
        at = above;
    }
    least
}
