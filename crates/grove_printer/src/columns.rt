ghost use Rattle.std.specs.Prelude.{◌≡◌, ◌++◌, OnOk, OnErr};
ghost use Rattle.grove_sorts.specs.Ctor.{ctor_text};
ghost use Rattle.edit_table.specs.Lent.{lent_ctor};
ghost use Rattle.grove_terms.specs.Lent.{edge_of, node_of, what_of};
ghost use Rattle.std.specs.Option.{option_map};
ghost use Rattle.grove_printer.specs.Print.{Extends, position_column, edge_column, vertex_column, what_column, place_columns, node_columns};

use edit_table::LentCtor;
use grove_names::write_name;
use grove_sorts::{Position, write_ctor, write_position};
use grove_terms::{LentEdge, LentNode, LentWhat};
use text_parts::{NoMemory, write_number, write_short};

// After an error each of these functions may have appended a part.

/// Appends the columns of a node, with a space between each two.
pub(crate) fn append_columns(node: &LentNode, out: &mut Vec<u8>) -> Result<(), NoMemory>
    ensures appended { OnOk result (out.new.items ≡ out.old.items ++ node_columns (node_of node.now)) }
    ensures in_part { OnErr result (Extends out.old.items out.new.items) }
{
    append_place(node, out)?;
    out.push(b' ')?;
    let what = node.what();
    append_vertex(&what, out)?;
    out.push(b' ')?;
    append_what(&what, out)
}

fn append_place(node: &LentNode, out: &mut Vec<u8>) -> Result<(), NoMemory>
    ensures appended { OnOk result (out.new.items ≡ out.old.items ++ place_columns (node_of node.now)) }
    ensures in_part { OnErr result (Extends out.old.items out.new.items) }
{
    write_number(node.depth(), out)?;
    out.push(b' ')?;
    append_position(node.position(), out)?;
    out.push(b' ')?;
    append_edge(node.edge(), out)
}

/// Appends the column of a position, or a dash where there is none.
pub fn append_position(position: Option<Position>, out: &mut Vec<u8>) -> Result<(), NoMemory>
    ensures appended { OnOk result (out.new.items ≡ out.old.items ++ position_column position) }
    ensures in_part { OnErr result (Extends out.old.items out.new.items) }
{
    match position {
        Some(position) => write_position(position, out)?,
        None => out.push(b'-')?,
    }
    Ok(())
}

/// Appends the column of an edge, which is its name, or a dash where there is none.
pub fn append_edge(edge: Option<LentEdge<'_>>, out: &mut Vec<u8>) -> Result<(), NoMemory>
    ensures appended { OnOk result (out.new.items ≡ out.old.items ++ edge_column (option_map edge_of edge.entry)) }
    ensures in_part { OnErr result (Extends out.old.items out.new.items) }
{
    match edge {
        Some(edge) => write_name(edge.name(), out)?,
        None => out.push(b'-')?,
    }
    Ok(())
}

/// Appends the column of a vertex, which is its name, or a dash where there is none.
pub fn append_vertex(what: &LentWhat, out: &mut Vec<u8>) -> Result<(), NoMemory>
    ensures appended { OnOk result (out.new.items ≡ out.old.items ++ vertex_column (what_of what.now)) }
    ensures in_part { OnErr result (Extends out.old.items out.new.items) }
{
    match what {
        LentWhat::Vertex(vertex) | LentWhat::MultiRef(vertex) | LentWhat::CycleRef(vertex) => {
            write_name(vertex.name, out)?
        }
        LentWhat::Hole(_) | LentWhat::Conflict(_, _) => out.push(b'-')?,
    }
    Ok(())
}

// A literal is written by its number, so that no wide constructor is made of it.
fn append_ctor(ctor: &LentCtor, out: &mut Vec<u8>) -> Result<(), NoMemory>
    ensures appended { OnOk result (out.new.items ≡ out.old.items ++ ctor_text (lent_ctor ctor.now)) }
    ensures in_part { OnErr result (Extends out.old.items out.new.items) }
{
    match ctor {
        LentCtor::At(ctor) => write_ctor(ctor, out)?,
        LentCtor::Literal(number) => {
            write_short(b"num:", out)?;
            write_number(*number, out)?
        }
    }
    Ok(())
}

/// Appends the column of what a node is.
pub fn append_what(what: &LentWhat, out: &mut Vec<u8>) -> Result<(), NoMemory>
    ensures appended { OnOk result (out.new.items ≡ out.old.items ++ what_column (what_of what.now)) }
    ensures in_part { OnErr result (Extends out.old.items out.new.items) }
{
    match what {
        LentWhat::Vertex(vertex) => append_ctor(&vertex.ctor, out)?,
        LentWhat::Hole(_) => write_short(b"hole", out)?,
        LentWhat::Conflict(_, count) => {
            write_short(b"conflict:", out)?;
            write_number(*count, out)?
        }
        LentWhat::MultiRef(vertex) => {
            write_short(b"multi:", out)?;
            append_ctor(&vertex.ctor, out)?
        }
        LentWhat::CycleRef(vertex) => {
            write_short(b"cycle:", out)?;
            append_ctor(&vertex.ctor, out)?
        }
    }
    Ok(())
}
