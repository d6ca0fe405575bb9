ghost use Rattle.std.specs.Prelude.{◌≡◌, None, Some, IfSome, IfNone};
ghost use Rattle.graph_words.specs.Walk.{above};
ghost use Rattle.graph_table.specs.Table.{live, vertex_at, IsNumber};

use graph_table::{GraphTable, Parents};

/// The number of the vertex above another one: the source of the one live parent edge, if there is exactly one.
pub(crate) fn number_above(table: &GraphTable, number: usize) -> Option<usize>
    requires { IsNumber table.now number }
    ensures number { IfSome result (IsNumber table.now) }
    ensures above { IfSome result (λ n. above (live table.now) (vertex_at table.now number) ≡ Some (vertex_at table.now n)) }
    ensures none { IfNone result (above (live table.now) (vertex_at table.now number) ≡ None) }
{
    match table.parents(number) {
        Parents::One(index) => Some(table.source(index)),
        Parents::Zero | Parents::More(_, _) => None,
    }
}
