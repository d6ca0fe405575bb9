ghost use Rattle.std.specs.Prelude.{◌≡◌, ◌∷◌, ◌++◌, OnOk, OnErr};
ghost use Rattle.grove_names.specs.Name.{name_text};
ghost use Rattle.grove_sorts.specs.Ctor.{ctor_text};
ghost use Rattle.edit_text.specs.Line.{spaced, edge_parts, Extends};
ghost use Rattle.edit_text.specs.Text.{line_of, text_of};

use grove_edits::{Edge, Edit, EditKind, Vertex};
use grove_names::write_name;
use grove_sorts::{write_ctor, write_position};
use text_parts::NoMemory;

/// Appends an edit's line with its LF.
pub fn write_line(edit: &Edit, out: &mut Vec<u8>) -> Result<(), NoMemory>
    ensures appended { OnOk result (out.new.items ≡ out.old.items ++ line_of edit.now) }
    ensures unchanged { OnErr result (out.new.items ≡ out.old.items) }
{
    let start = out.len();
    let written = append_line(edit, out);
    if written.is_err() {
        out.truncate(start);
    }
    written
}

// After an error the line may stand in part, as in the two functions below.
fn append_line(edit: &Edit, out: &mut Vec<u8>) -> Result<(), NoMemory>
    ensures appended { OnOk result (out.new.items ≡ out.old.items ++ line_of edit.now) }
    ensures in_part { OnErr result (Extends out.old.items out.new.items) }
{
    out.push(match edit.kind() {
        EditKind::Insert => b'+',
        EditKind::Delete => b'-',
    })?;
    append_edge(&edit.edge(), out)?;
    out.push(b'\n')?;
    Ok(())
}

fn append_edge(edge: &Edge, out: &mut Vec<u8>) -> Result<(), NoMemory>
    ensures appended { OnOk result (out.new.items ≡ out.old.items ++ spaced (edge_parts edge.now)) }
    ensures in_part { OnErr result (Extends out.old.items out.new.items) }
{
    write_name(edge.name, out)?;
    out.push(b' ')?;
    append_vertex(&edge.source, out)?;
    out.push(b' ')?;
    write_position(edge.position, out)?;
    out.push(b' ')?;
    append_vertex(&edge.target, out)?;
    Ok(())
}

fn append_vertex(vertex: &Vertex, out: &mut Vec<u8>) -> Result<(), NoMemory>
    ensures appended { OnOk result (out.new.items ≡ out.old.items ++ (name_text vertex.now.name ++ 32 ∷ ctor_text vertex.now.ctor)) }
    ensures in_part { OnErr result (Extends out.old.items out.new.items) }
{
    write_name(vertex.name, out)?;
    out.push(b' ')?;
    write_ctor(&vertex.ctor, out)?;
    Ok(())
}

/// Appends the lines of edits.
pub fn write_edits(edits: &[Edit], out: &mut Vec<u8>) -> Result<(), NoMemory>
    ensures appended { OnOk result (out.new.items ≡ out.old.items ++ text_of edits.now) }
    ensures unchanged { OnErr result (out.new.items ≡ out.old.items) }
{
    let start = out.len();
    for edit in edits {
        if write_line(edit, out).is_err() {
            out.truncate(start);
            return Err(NoMemory);
        }
    }
    Ok(())
}
