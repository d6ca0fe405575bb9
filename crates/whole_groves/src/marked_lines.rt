ghost use Rattle.std.specs.Prelude.{◌≡◌, ◌++◌, map, OnOk, OnErr};
ghost use Rattle.marking.specs.Reading.{meant_nodes};
ghost use Rattle.whole_groves.specs.Marked.{meant_grove, AreMarkedListsOf, IsMarkedGroveOf};
ghost use Rattle.grove_printer.specs.Print.{Extends, trees_marked_lines, marked_lines};

use crate::marked_grove::MarkedGrove;
use grove_printer::{NoMemory, append_marked_lines_of, whole_or_nothing};
use marking::MarkedTree;
use type_core::{TypePrinter, TypeTable};

/// Appends the lines of the print text whose nodes have a mark, without headings.
pub fn print_marked_lines(
    marked: &MarkedGrove,
    types: &TypeTable,
    out: &mut Vec<u8>,
) -> Result<(), NoMemory>
    requires { IsMarkedGroveOf types.now marked.now }
    ensures appended { OnOk result (out.new.items ≡ out.old.items ++ marked_lines (meant_grove types.now marked.now)) }
    ensures unchanged { OnErr result (out.new.items ≡ out.old.items) }
{
    let start = out.len();
    let mut printer = TypePrinter::new(*out.allocator(), types);
    let written = append_marked_lines(marked, &mut printer, out);
    whole_or_nothing(written, start, out)
}

// After an error each of these functions may have appended a part.

fn append_marked_lines(
    marked: &MarkedGrove,
    types: &mut TypePrinter,
    out: &mut Vec<u8>,
) -> Result<(), NoMemory>
    requires { IsMarkedGroveOf types.old marked.now }
    ensures appended { OnOk result (out.new.items ≡ out.old.items ++ marked_lines (meant_grove types.old marked.now)) }
    ensures in_part { OnErr result (Extends out.old.items out.new.items) }
    ensures same_types { types.new ≡ types.old }
{
    append_of_trees(marked.none.as_slice(), types, out)?;
    append_of_trees(marked.multi.as_slice(), types, out)?;
    append_of_trees(marked.cycle.as_slice(), types, out)
}

fn append_of_trees(
    trees: &[MarkedTree],
    types: &mut TypePrinter,
    out: &mut Vec<u8>,
) -> Result<(), NoMemory>
    requires { AreMarkedListsOf types.old trees.now }
    ensures appended { OnOk result (out.new.items ≡ out.old.items ++ trees_marked_lines (map (meant_nodes types.old) trees.now)) }
    ensures in_part { OnErr result (Extends out.old.items out.new.items) }
    ensures same_types { types.new ≡ types.old }
{
    for tree in trees {
        append_marked_lines_of(tree, types, out)?;
    }
    Ok(())
}
