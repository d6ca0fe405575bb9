ghost use Rattle.std.specs.Prelude.{◌≡◌, ◌++◌, OnOk, OnErr, IfSome};
ghost use Rattle.std.specs.Option.{option_map};
ghost use Rattle.type_core.specs.TypeTable.{IsTypeOf, type_at};
ghost use Rattle.mark_step.specs.Node.{IsModeOf, wanted_at};
ghost use Rattle.grove_terms.specs.Lent.{what_of};
ghost use Rattle.marking.specs.Added.{with_added};
ghost use Rattle.marking.specs.Reading.{meant};
ghost use Rattle.marking.specs.Numbers.{IsMarkedNodeOf};
ghost use Rattle.grove_printer.specs.Print.{Extends, sort_of_node, mode_column, type_column, mark_text, mark_columns};

use grove_sorts::{Sort, write_sort};
use grove_terms::{LentNode, LentWhat};
use mark_step::{Mark, Mode};
use marking::Added;
use text_parts::{NoMemory, write_short};
use type_core::{TypeId, TypePrinter};

/// How many levels of a type are printed.
const LEVELS: u8 = 8;

// After an error each of these functions may have appended a part.

/// Appends what is wanted of a node, its type and its mark, with a space between each two.
pub(crate) fn append_marks(
    node: &LentNode,
    added: &Added,
    types: &mut TypePrinter,
    out: &mut Vec<u8>,
) -> Result<(), NoMemory>
    requires { IsMarkedNodeOf types.old (with_added node.now added.now) }
    ensures appended { OnOk result (out.new.items ≡ out.old.items ++ mark_columns (meant types.old (with_added node.now added.now))) }
    ensures in_part { OnErr result (Extends out.old.items out.new.items) }
    ensures same_types { types.new ≡ types.old }
{
    append_mode(sort_of_node(&node.what()), added.mode, types, out)?;
    out.push(b' ')?;
    append_type(added.typ, types, out)?;
    out.push(b' ')?;
    write_short(mark_word(added.mark), out)?;
    Ok(())
}

/// Appends the column of what is wanted of a node of a sort.
pub fn append_mode(
    sort: Sort,
    mode: Option<Mode>,
    types: &mut TypePrinter,
    out: &mut Vec<u8>,
) -> Result<(), NoMemory>
    requires { IfSome mode (IsModeOf types.old) }
    ensures appended { OnOk result (out.new.items ≡ out.old.items ++ mode_column sort (option_map (wanted_at types.old) mode)) }
    ensures in_part { OnErr result (Extends out.old.items out.new.items) }
    ensures same_types { types.new ≡ types.old }
{
    match mode {
        None => write_sort(sort, out)?,
        Some(Mode::Syn) => write_short(b"syn", out)?,
        Some(Mode::Ana(typ)) => {
            write_short(b"ana:", out)?;
            types.write_type(typ, LEVELS, out)?
        }
    }
    Ok(())
}

/// Appends the column of a type, or a dash where there is none.
pub fn append_type(
    typ: Option<TypeId>,
    types: &mut TypePrinter,
    out: &mut Vec<u8>,
) -> Result<(), NoMemory>
    requires { IfSome typ (IsTypeOf types.old) }
    ensures appended { OnOk result (out.new.items ≡ out.old.items ++ type_column (option_map (type_at types.old) typ)) }
    ensures in_part { OnErr result (Extends out.old.items out.new.items) }
    ensures same_types { types.new ≡ types.old }
{
    match typ {
        None => out.push(b'-')?,
        Some(typ) => types.write_type(typ, LEVELS, out)?,
    }
    Ok(())
}

/// The sort of a node: that of its vertex, or of the position without a sole child.
pub fn sort_of_node(what: &LentWhat) -> Sort
    ensures { result ≡ sort_of_node (what_of what.now) }
{
    match what {
        LentWhat::Vertex(vertex) | LentWhat::MultiRef(vertex) | LentWhat::CycleRef(vertex) => {
            vertex.ctor.sort()
        }
        LentWhat::Hole(sort) | LentWhat::Conflict(sort, _) => *sort,
    }
}

/// The column of a mark.
pub fn mark_word(mark: Mark) -> &'static [u8]
    ensures { result.now ≡ mark_text mark }
{
    match mark {
        Mark::None => b"-",
        Mark::Free => b"free",
        Mark::NotArrow => b"not-arrow",
        Mark::NotProduct => b"not-product",
        Mark::Branches => b"branches",
        Mark::LamAgainst => b"lam-against",
        Mark::Ascription => b"ascription",
        Mark::PairAgainst => b"pair-against",
        Mark::Inconsistent => b"inconsistent",
        Mark::NotSum => b"not-sum",
        Mark::InjAgainst => b"inj-against",
    }
}
