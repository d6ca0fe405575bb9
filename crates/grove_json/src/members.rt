ghost use Rattle.std.specs.Prelude.{◌≡◌, ◌++◌, codes, OnOk, IfSome};
ghost use Rattle.std.specs.Option.{option_map};
ghost use Rattle.type_core.specs.TypeTable.{IsTypeOf, type_at};
ghost use Rattle.mark_step.specs.Node.{IsModeOf, wanted_at};
ghost use Rattle.grove_terms.specs.Lent.{edge_of, what_of};
ghost use Rattle.grove_printer.specs.Print.{edge_column, mark_text, mode_column, position_column, type_column, vertex_column, what_column};
ghost use Rattle.grove_json.specs.NodeText.{depth_member, text_member};

use grove_printer::{
    append_edge, append_mode, append_position, append_type, append_vertex, append_what, mark_word,
};
use grove_sorts::{Position, Sort};
use grove_terms::{LentEdge, LentWhat};
use mark_step::{Mark, Mode};
use text_parts::{NoMemory, write_number, write_short};
use type_core::{TypeId, TypePrinter};

// No column has a quote, a backslash or a control, so that each stands between quotes as it is.

/// Appends the bracket that opens the object of a node, and its depth.
pub(crate) fn append_depth(depth: u64, out: &mut Vec<u8>) -> Result<(), NoMemory>
    ensures { OnOk result (out.new.items ≡ out.old.items ++ depth_member depth) }
{
    write_short(b"{\"depth\":", out)?;
    Ok(write_number(depth, out)?)
}

/// Appends the member of the edge that leads to a node.
pub(crate) fn append_edge_member(
    edge: Option<LentEdge<'_>>,
    out: &mut Vec<u8>,
) -> Result<(), NoMemory>
    ensures { OnOk result (out.new.items ≡ out.old.items ++ text_member (codes "edge") (edge_column (option_map edge_of edge.entry))) }
{
    write_short(b",\"edge\":\"", out)?;
    append_edge(edge, out)?;
    out.push(b'"')?;
    Ok(())
}

/// Appends the member of the mark of a node.
pub(crate) fn append_mark_member(mark: Mark, out: &mut Vec<u8>) -> Result<(), NoMemory>
    ensures { OnOk result (out.new.items ≡ out.old.items ++ text_member (codes "mark") (mark_text mark)) }
{
    write_short(b",\"mark\":\"", out)?;
    write_short(mark_word(mark), out)?;
    out.push(b'"')?;
    Ok(())
}

/// Appends the member of what is wanted of a node of a sort.
pub(crate) fn append_mode_member(
    sort: Sort,
    mode: Option<Mode>,
    types: &mut TypePrinter,
    out: &mut Vec<u8>,
) -> Result<(), NoMemory>
    requires { IfSome mode (IsModeOf types.old) }
    ensures appended { OnOk result (out.new.items ≡ out.old.items ++ text_member (codes "mode") (mode_column sort (option_map (wanted_at types.old) mode))) }
    ensures same_types { types.new ≡ types.old }
{
    write_short(b",\"mode\":\"", out)?;
    append_mode(sort, mode, types, out)?;
    out.push(b'"')?;
    Ok(())
}

/// Appends the member of the position of a node.
pub(crate) fn append_position_member(
    position: Option<Position>,
    out: &mut Vec<u8>,
) -> Result<(), NoMemory>
    ensures { OnOk result (out.new.items ≡ out.old.items ++ text_member (codes "position") (position_column position)) }
{
    write_short(b",\"position\":\"", out)?;
    append_position(position, out)?;
    out.push(b'"')?;
    Ok(())
}

/// Appends the member of the type of a node.
pub(crate) fn append_type_member(
    typ: Option<TypeId>,
    types: &mut TypePrinter,
    out: &mut Vec<u8>,
) -> Result<(), NoMemory>
    requires { IfSome typ (IsTypeOf types.old) }
    ensures appended { OnOk result (out.new.items ≡ out.old.items ++ text_member (codes "type") (type_column (option_map (type_at types.old) typ))) }
    ensures same_types { types.new ≡ types.old }
{
    write_short(b",\"type\":\"", out)?;
    append_type(typ, types, out)?;
    out.push(b'"')?;
    Ok(())
}

/// Appends the member of the vertex of a node.
pub(crate) fn append_vertex_member(what: &LentWhat, out: &mut Vec<u8>) -> Result<(), NoMemory>
    ensures { OnOk result (out.new.items ≡ out.old.items ++ text_member (codes "vertex") (vertex_column (what_of what.now))) }
{
    write_short(b",\"vertex\":\"", out)?;
    append_vertex(what, out)?;
    out.push(b'"')?;
    Ok(())
}

/// Appends the member of what a node is.
pub(crate) fn append_what_member(what: &LentWhat, out: &mut Vec<u8>) -> Result<(), NoMemory>
    ensures { OnOk result (out.new.items ≡ out.old.items ++ text_member (codes "what") (what_column (what_of what.now))) }
{
    write_short(b",\"what\":\"", out)?;
    append_what(what, out)?;
    out.push(b'"')?;
    Ok(())
}
