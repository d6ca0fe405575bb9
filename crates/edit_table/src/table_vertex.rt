ghost use Rattle.std.specs.Prelude.{◌≡◌};
ghost use Rattle.edit_table.specs.Table.{IsNumber};

use crate::edit_table::EditTable;
use crate::lent_vertex::LentVertex;
use std::fmt;

/// A vertex of a table, lent.
#[derive(Clone, Copy)]
pub struct TableVertex<'g> {
    table: &'g EditTable,
    number: u32,
    ghost is_number: { IsNumber table.now number },
}

impl fmt::Debug for TableVertex<'_> {
    fn fmt<W: fmt::Write>(&self, f: &mut fmt::Formatter<W>) -> fmt::Result {
        write!(f, "vertex {}", self.number)
    }
}

impl<'g> TableVertex<'g> {
    ghost use Rattle.edit_table.specs.Table.{vertex_at};
    ghost use Rattle.edit_table.specs.Lent.{lent_vertex};
    ghost use Rattle.edit_table.specs.TableVertex.{table_vertex};

    /// The vertex with a number.
    pub(crate) fn at(table: &'g EditTable, number: u32) -> TableVertex<'g>
        requires { IsNumber table.now number }
        ensures { table_vertex result ≡ vertex_at table.now number }
    {
        TableVertex { table, number }
    }

    /// The vertex, its constructor lent by the table.
    pub fn lent(&self) -> LentVertex<'g>
        ensures { lent_vertex result ≡ table_vertex self.now }
    {
        let table = self.table;
        table.lent(self.number as usize)
    }
}
