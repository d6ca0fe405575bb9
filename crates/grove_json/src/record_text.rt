ghost use Rattle.std.specs.Prelude.{◌≡◌, ◌++◌, codes, OnOk, IfSome};
ghost use Rattle.std.specs.Option.{option_map};
ghost use Rattle.serde_json.specs.Written.{compact_text};
ghost use Rattle.type_core.specs.TypeTable.{IsTypeOf, type_at};
ghost use Rattle.mark_step.specs.Node.{IsModeOf, wanted_at};
ghost use Rattle.grove_printer.specs.Print.{mark_text};
ghost use Rattle.grove_json.specs.NodeText.{judgement_members, opening_member, vertex_members};
ghost use Rattle.grove_json.specs.RecordValue.{record_value};

use crate::members::{
    append_mode_member, append_type_member, append_vertex_member, append_what_member,
};
use grove_edits::Vertex;
use grove_printer::mark_word;
use grove_sorts::{Sort, sort_of};
use grove_terms::LentNode;
use mark_step::Mark;
use marking::Added;
use text_parts::{NoMemory, write_short};
use type_core::TypePrinter;

/// Appends the object of what marking says of a vertex, wherever it stands. After an error a part of it may stand.
pub fn append_record(
    vertex: &Vertex,
    added: &Added,
    types: &mut TypePrinter,
    out: &mut Vec<u8>,
) -> Result<(), NoMemory>
    requires mode { IfSome added.now.mode (IsModeOf types.old) }
    requires typ { IfSome added.now.typ (IsTypeOf types.old) }
    ensures appended { OnOk result (out.new.items ≡ out.old.items
        ++ compact_text (record_value vertex.now (option_map (wanted_at types.old) added.now.mode) (option_map (type_at types.old) added.now.typ) added.now.mark)) }
    ensures same_types { types.new ≡ types.old }
{
    append_judgement(sort_of(&vertex.ctor), added, types, out)?;
    append_own(vertex, out)
}

// The bracket that opens the object, and the members of what marking says of a vertex of a sort.
fn append_judgement(
    sort: Sort,
    added: &Added,
    types: &mut TypePrinter,
    out: &mut Vec<u8>,
) -> Result<(), NoMemory>
    requires mode { IfSome added.now.mode (IsModeOf types.old) }
    requires typ { IfSome added.now.typ (IsTypeOf types.old) }
    ensures appended { OnOk result (out.new.items ≡ out.old.items
        ++ judgement_members sort (option_map (wanted_at types.old) added.now.mode) (option_map (type_at types.old) added.now.typ) added.now.mark) }
    ensures same_types { types.new ≡ types.old }
{
    append_opening_mark(added.mark, out)?;
    append_mode_member(sort, added.mode, types, out)?;
    append_type_member(added.typ, types, out)
}

// The bracket that opens the object, and the member of the mark.
fn append_opening_mark(mark: Mark, out: &mut Vec<u8>) -> Result<(), NoMemory>
    ensures { OnOk result (out.new.items ≡ out.old.items ++ opening_member (codes "mark") (mark_text mark)) }
{
    write_short(b"{\"mark\":\"", out)?;
    write_short(mark_word(mark), out)?;
    out.push(b'"')?;
    Ok(())
}

// The members of the vertex itself, and the bracket that closes the object.
fn append_own(vertex: &Vertex, out: &mut Vec<u8>) -> Result<(), NoMemory>
    ensures { OnOk result (out.new.items ≡ out.old.items ++ vertex_members vertex.now) }
{
    let what = LentNode::head(vertex).what();
    append_vertex_member(&what, out)?;
    append_what_member(&what, out)?;
    out.push(b'}')?;
    Ok(())
}
