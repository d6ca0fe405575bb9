ghost use Rattle.std.specs.Prelude.{◌≡◌, true, length, IfOk};
ghost use Rattle.std.specs.List.{IsDistinct};
ghost use Rattle.grove_edits.specs.declared.vertex.Vertex.{Vertex};
ghost use Rattle.grove_edits.specs.Graph.{graph};
ghost use Rattle.grove_edits.specs.Vertex.{is_same_vertex, stands_in};
ghost use Rattle.graph_words.specs.Whole.{IsVertexOf};

use graph_table::GraphTable;
use text_parts::NoMemory;

/// How many vertices a table has, in 32 bits, as lists keep their numbers.
pub(crate) fn narrow_count(table: &GraphTable) -> Result<u32, NoMemory>
    ensures count { IfOk result (λ count. count ≡ length table.now.vertices) }
    ensures once { IsDistinct is_same_vertex table.now.vertices }
    ensures each { (v : Vertex) → IsVertexOf (graph table.now.edits) v → stands_in v table.now.vertices ≡ true }
    ensures no_other { (v : Vertex) → stands_in v table.now.vertices ≡ true → IsVertexOf (graph table.now.edits) v }
{
    let Ok(count) = u32::try_from(table.number_count()) else {
        return Err(NoMemory);
    };
    Ok(count)
}
