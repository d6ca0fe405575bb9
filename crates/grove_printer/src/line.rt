ghost use Rattle.std.specs.Prelude.{◌≡◌, ◌++◌, take, OnOk, OnErr};
ghost use Rattle.marking.specs.Added.{with_added};
ghost use Rattle.marking.specs.Reading.{meant};
ghost use Rattle.marking.specs.Numbers.{IsMarkedNodeOf};
ghost use Rattle.grove_printer.specs.Print.{Extends, node_line};

use crate::columns::append_columns;
use crate::marks::append_marks;
use grove_terms::LentNode;
use marking::Added;
use text_parts::NoMemory;
use type_core::TypePrinter;

/// Appends the line of a node and what marking adds to it; after an error a part of it may stand.
pub(crate) fn append_line(
    node: &LentNode,
    added: &Added,
    types: &mut TypePrinter,
    out: &mut Vec<u8>,
) -> Result<(), NoMemory>
    requires { IsMarkedNodeOf types.old (with_added node.now added.now) }
    ensures appended { OnOk result (out.new.items ≡ out.old.items ++ node_line (meant types.old (with_added node.now added.now))) }
    ensures in_part { OnErr result (Extends out.old.items out.new.items) }
    ensures same_types { types.new ≡ types.old }
{
    append_columns(node, out)?;
    out.push(b' ')?;
    append_marks(node, added, types, out)?;
    out.push(b'\n')?;
    Ok(())
}

/// What was written since the buffer had a length stays where it is whole; after an error it is taken off.
pub fn whole_or_nothing(
    written: Result<(), NoMemory>,
    length: usize,
    out: &mut Vec<u8>,
) -> Result<(), NoMemory>
    ensures same { result ≡ written }
    ensures whole { OnOk written (out.new.items ≡ out.old.items) }
    ensures nothing { OnErr written (out.new.items ≡ take length out.old.items) }
{
    if written.is_err() {
        out.truncate(length);
    }
    written
}
