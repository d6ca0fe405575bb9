ghost use Rattle.std.specs.Prelude.{◌≡◌, ◌++◌, length, map, OnOk, OnErr};
ghost use Rattle.marking.specs.Reading.{meant_nodes};
ghost use Rattle.whole_groves.specs.Marked.{meant_grove, AreMarkedListsOf, IsMarkedGroveOf};
ghost use Rattle.grove_printer.specs.Print.{Extends, trees_text, heading, print_text};

use crate::marked_grove::MarkedGrove;
use crate::marked_tree_list::MarkedTreeList;
use grove_printer::{NoMemory, Section, append_heading, append_tree, whole_or_nothing};
use marking::MarkedTree;
use type_core::{TypePrinter, TypeTable};

/// Appends the print text of a marked grove: under a heading for each of its three lists a line for each node of its trees.
pub fn print_grove(
    marked: &MarkedGrove,
    types: &TypeTable,
    out: &mut Vec<u8>,
) -> Result<(), NoMemory>
    requires { IsMarkedGroveOf types.now marked.now }
    ensures appended { OnOk result (out.new.items ≡ out.old.items ++ print_text (meant_grove types.now marked.now)) }
    ensures unchanged { OnErr result (out.new.items ≡ out.old.items) }
{
    let start = out.len();
    let mut printer = TypePrinter::new(*out.allocator(), types);
    let written = append_grove(marked, &mut printer, out);
    whole_or_nothing(written, start, out)
}

// After an error each of these functions may have appended a part.

fn append_grove(
    marked: &MarkedGrove,
    types: &mut TypePrinter,
    out: &mut Vec<u8>,
) -> Result<(), NoMemory>
    requires { IsMarkedGroveOf types.old marked.now }
    ensures appended { OnOk result (out.new.items ≡ out.old.items ++ print_text (meant_grove types.old marked.now)) }
    ensures in_part { OnErr result (Extends out.old.items out.new.items) }
    ensures same_types { types.new ≡ types.old }
{
    append_section(Section::NoParent, &marked.none, types, out)?;
    append_section(Section::Multi, &marked.multi, types, out)?;
    append_section(Section::Cycle, &marked.cycle, types, out)
}

fn append_section(
    section: Section,
    trees: &MarkedTreeList,
    types: &mut TypePrinter,
    out: &mut Vec<u8>,
) -> Result<(), NoMemory>
    requires { AreMarkedListsOf types.old trees.now }
    ensures appended { OnOk result (out.new.items ≡ out.old.items
        ++ (heading section (length trees.now) ++ trees_text (map (meant_nodes types.old) trees.now))) }
    ensures in_part { OnErr result (Extends out.old.items out.new.items) }
    ensures same_types { types.new ≡ types.old }
{
    append_heading(section, trees.len(), out)?;
    append_trees(trees.as_slice(), types, out)
}

fn append_trees(
    trees: &[MarkedTree],
    types: &mut TypePrinter,
    out: &mut Vec<u8>,
) -> Result<(), NoMemory>
    requires { AreMarkedListsOf types.old trees.now }
    ensures appended { OnOk result (out.new.items ≡ out.old.items ++ trees_text (map (meant_nodes types.old) trees.now)) }
    ensures in_part { OnErr result (Extends out.old.items out.new.items) }
    ensures same_types { types.new ≡ types.old }
{
    for tree in trees {
        append_tree(tree, types, out)?;
    }
    Ok(())
}
