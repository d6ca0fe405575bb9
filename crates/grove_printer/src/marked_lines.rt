ghost use Rattle.std.specs.Prelude.{◌≡◌, ◌++◌, OnOk, OnErr};
ghost use Rattle.marking.specs.Reading.{meant_nodes};
ghost use Rattle.marking.specs.Numbers.{AreMarkedNodesOf};
ghost use Rattle.grove_printer.specs.Print.{Extends, tree_marked_lines};

use crate::line::{append_line, whole_or_nothing};
use marking::MarkedTree;
use text_parts::NoMemory;
use type_core::{TypePrinter, TypeTable};

/// Appends the lines of a marked tree whose nodes have a mark.
pub fn print_marked_lines_of(
    tree: &MarkedTree,
    types: &TypeTable,
    out: &mut Vec<u8>,
) -> Result<(), NoMemory>
    requires { AreMarkedNodesOf types.now tree.now }
    ensures appended { OnOk result (out.new.items ≡ out.old.items ++ tree_marked_lines (meant_nodes types.now tree.now)) }
    ensures unchanged { OnErr result (out.new.items ≡ out.old.items) }
{
    let start = out.len();
    let mut printer = TypePrinter::new(*out.allocator(), types);
    let written = append_marked_lines_of(tree, &mut printer, out);
    whole_or_nothing(written, start, out)
}

/// Appends the same as `print_marked_lines_of`; after an error a part of it may stand.
pub fn append_marked_lines_of(
    tree: &MarkedTree,
    types: &mut TypePrinter,
    out: &mut Vec<u8>,
) -> Result<(), NoMemory>
    requires { AreMarkedNodesOf types.old tree.now }
    ensures appended { OnOk result (out.new.items ≡ out.old.items ++ tree_marked_lines (meant_nodes types.old tree.now)) }
    ensures in_part { OnErr result (Extends out.old.items out.new.items) }
    ensures same_types { types.new ≡ types.old }
{
    for (node, added) in tree.nodes().iter().zip(tree.added()) {
        if added.mark.is_some() {
            append_line(node, added, types, out)?;
        }
    }
    Ok(())
}
