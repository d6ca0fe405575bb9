ghost use Rattle.std.specs.Prelude.{◌≡◌, ◌++◌, OnOk, OnErr};
ghost use Rattle.marking.specs.Reading.{meant_nodes};
ghost use Rattle.marking.specs.Numbers.{AreMarkedNodesOf};
ghost use Rattle.grove_printer.specs.Print.{Extends, tree_text, heading};

use crate::line::{append_line, whole_or_nothing};
use crate::section::Section;
use marking::MarkedTree;
use text_parts::{NoMemory, write_number, write_short};
use type_core::{TypePrinter, TypeTable};

/// Appends the heading of a list of trees: which list it is, and how many trees there are.
pub fn print_heading(section: Section, trees: usize, out: &mut Vec<u8>) -> Result<(), NoMemory>
    ensures appended { OnOk result (out.new.items ≡ out.old.items ++ heading section trees) }
    ensures unchanged { OnErr result (out.new.items ≡ out.old.items) }
{
    let start = out.len();
    let written = append_heading(section, trees, out);
    whole_or_nothing(written, start, out)
}

/// Appends a line for each node of a marked tree.
pub fn print_tree(tree: &MarkedTree, types: &TypeTable, out: &mut Vec<u8>) -> Result<(), NoMemory>
    requires { AreMarkedNodesOf types.now tree.now }
    ensures appended { OnOk result (out.new.items ≡ out.old.items ++ tree_text (meant_nodes types.now tree.now)) }
    ensures unchanged { OnErr result (out.new.items ≡ out.old.items) }
{
    let start = out.len();
    let mut printer = TypePrinter::new(*out.allocator(), types);
    let written = append_tree(tree, &mut printer, out);
    whole_or_nothing(written, start, out)
}

/// Appends the same as `print_heading`; after an error a part of it may stand.
pub fn append_heading(section: Section, trees: usize, out: &mut Vec<u8>) -> Result<(), NoMemory>
    ensures appended { OnOk result (out.new.items ≡ out.old.items ++ heading section trees) }
    ensures in_part { OnErr result (Extends out.old.items out.new.items) }
{
    write_short(section.word(), out)?;
    write_number(trees as u64, out)?;
    out.push(b'\n')?;
    Ok(())
}

/// Appends the same as `print_tree`; after an error a part of it may stand.
pub fn append_tree(
    tree: &MarkedTree,
    types: &mut TypePrinter,
    out: &mut Vec<u8>,
) -> Result<(), NoMemory>
    requires { AreMarkedNodesOf types.old tree.now }
    ensures appended { OnOk result (out.new.items ≡ out.old.items ++ tree_text (meant_nodes types.old tree.now)) }
    ensures in_part { OnErr result (Extends out.old.items out.new.items) }
    ensures same_types { types.new ≡ types.old }
{
    for (node, added) in tree.nodes().iter().zip(tree.added()) {
        append_line(node, added, types, out)?;
    }
    Ok(())
}
