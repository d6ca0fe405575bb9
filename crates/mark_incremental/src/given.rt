ghost use Rattle.std.specs.Prelude.{◌≡◌, IfSome};
ghost use Rattle.std.specs.Option.{option_map};
ghost use Rattle.grove_sorts.specs.Ctor.{sort_of_ctor};
ghost use Rattle.type_core.specs.TypeTable.{IsTypeOf, type_at};
ghost use Rattle.marking.specs.Types.{pattern_name};
ghost use Rattle.judging.specs.Frames.{given_at, IsGivenOf};
ghost use Rattle.mark_incremental.specs.Looking.{given_in};

use grove_sorts::{Ctor, Ident, Sort, sort_of};
use judging::Given;
use mark_store::Record;
use type_core::TypeTable;

fn name_of(ctor: &Ctor) -> Option<&Ident>
    ensures { option_map (λ n. n.now) result ≡ pattern_name ctor.now }
{
    match ctor {
        Ctor::PVar(name) => Some(name),
        _ => None,
    }
}

/// What a vertex gives to the one above it, by its record: its type, and its name where it is a pattern.
pub(crate) fn given_by<'t>(types: &TypeTable, ctor: &'t Ctor, kept: &Record) -> Given<'t>
    requires { IfSome kept.now.typ (IsTypeOf types.now) }
    ensures given { given_at types.now result ≡ given_in (sort_of_ctor ctor.now) ctor.now (option_map (type_at types.now) kept.now.typ) }
    ensures number { IsGivenOf types.now result }
{
    match sort_of(ctor) {
        Sort::Pat => Given {
            typ: types.unknown(),
            name: name_of(ctor),
        },
        Sort::Exp | Sort::Typ | Sort::Top => Given {
            typ: kept.typ.unwrap_or(types.unknown()),
            name: None,
        },
    }
}
