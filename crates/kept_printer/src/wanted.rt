ghost use Rattle.std.specs.Prelude.{◌≡◌, Option, Some, None, IfSome, unwrap_or};
ghost use Rattle.std.specs.Option.{option_map};
ghost use Rattle.type_core.specs.declared.former.Former.TheVariants.{Arrow, Product, Sum};
ghost use Rattle.type_core.specs.Typ.{Typ, Unknown};
ghost use Rattle.type_core.specs.TypeTable.{IsTypeOf, type_at};
ghost use Rattle.mark_step.specs.Step.{parts_or_unknown, wanted_next, wanted_of_body, wanted_in_application, wanted_in_conditional, wanted_in_pair, wanted_of_rest, wanted_on_left, wanted_on_right};
ghost use Rattle.mark_step.specs.Node.{wanted_at, IsModeOf};
ghost use Rattle.edit_table.specs.Lent.{lent_ctor};
ghost use Rattle.kept_printer.specs.Above.{as_list};

use edit_table::LentCtor;
use grove_sorts::Ctor;
use mark_step::Mode;
use type_core::{TypeId, TypeTable};

/// What is wanted of the child that comes next under a vertex of which this is wanted. The first expression before the child has this
/// type, if there is one.
pub(crate) fn mode_next(
    types: &TypeTable,
    ctor: LentCtor<'_>,
    mode: Mode,
    first: Option<TypeId>,
) -> Mode
    requires mode { IsModeOf types.now mode }
    requires first { IfSome first (IsTypeOf types.now) }
    ensures wanted { wanted_at types.now result ≡ wanted_next (lent_ctor ctor.entry) (wanted_at types.now mode) (as_list (option_map (type_at types.now) first)) }
    ensures number { IsModeOf types.now result }
{
    match ctor {
        LentCtor::At(ctor) => mode_under(types, ctor, mode, first),
        LentCtor::Literal(_literal) => Mode::Syn,
    }
}

fn mode_under(types: &TypeTable, ctor: &Ctor, mode: Mode, first: Option<TypeId>) -> Mode
    requires mode { IsModeOf types.now mode }
    requires first { IfSome first (IsTypeOf types.now) }
    ensures wanted { wanted_at types.now result ≡ wanted_next ctor.now (wanted_at types.now mode) (as_list (option_map (type_at types.now) first)) }
    ensures number { IsModeOf types.now result }
{
    match ctor {
        Ctor::Lam => body_mode(types, mode),
        Ctor::Ap => mode_in_application(types, first),
        Ctor::Plus => Mode::Ana(types.num()),
        Ctor::Choose => mode_in_conditional(types, mode, first),
        Ctor::Pair => mode_in_pair(types, mode, first),
        Ctor::Let | Ctor::Case => mode_of_rest(types, mode, first),
        Ctor::Inl => mode_on_left(types, mode),
        Ctor::Inr => mode_on_right(types, mode),
        Ctor::Root | Ctor::Fst | Ctor::Snd => Mode::Syn,
        Ctor::Var(_) | Ctor::Num(_) | Ctor::LitTrue | Ctor::LitFalse => Mode::Syn,
        Ctor::PVar(_) | Ctor::TNum | Ctor::TBool => Mode::Syn,
        Ctor::TArrow | Ctor::TProd | Ctor::TSum => Mode::Syn,
    }
}

fn body_mode(types: &TypeTable, mode: Mode) -> Mode
    requires { IsModeOf types.now mode }
    ensures wanted { wanted_at types.now result ≡ wanted_of_body (wanted_at types.now mode) }
    ensures number { IsModeOf types.now result }
{
    match mode {
        Mode::Syn => Mode::Syn,
        Mode::Ana(typ) => {
            let (_, to) = parts(types, types.matched_arrow(typ));
            Mode::Ana(to)
        }
    }
}

// The function synthesises, and the argument is analysed against what the function takes.
fn mode_in_application(types: &TypeTable, first: Option<TypeId>) -> Mode
    requires { IfSome first (IsTypeOf types.now) }
    ensures wanted { wanted_at types.now result ≡ wanted_in_application (as_list (option_map (type_at types.now) first)) }
    ensures number { IsModeOf types.now result }
{
    let Some(function) = first else {
        return Mode::Syn;
    };
    let (from, _) = parts(types, types.matched_arrow(function));
    Mode::Ana(from)
}

// The condition is a truth value, and of the branches is wanted what is wanted of the conditional.
fn mode_in_conditional(types: &TypeTable, mode: Mode, first: Option<TypeId>) -> Mode
    requires { IsModeOf types.now mode }
    ensures wanted { wanted_at types.now result ≡ wanted_in_conditional (wanted_at types.now mode) (as_list (option_map (type_at types.now) first)) }
    ensures number { IsModeOf types.now result }
{
    match first {
        Some(_condition) => mode,
        None => Mode::Ana(types.boolean()),
    }
}

fn mode_in_pair(types: &TypeTable, mode: Mode, first: Option<TypeId>) -> Mode
    requires { IsModeOf types.now mode }
    ensures wanted { wanted_at types.now result ≡ wanted_in_pair (wanted_at types.now mode) (as_list (option_map (type_at types.now) first)) }
    ensures number { IsModeOf types.now result }
{
    let Mode::Ana(typ) = mode else {
        return Mode::Syn;
    };
    let (left, right) = parts(types, types.matched_product(typ));
    match first {
        Some(_left) => Mode::Ana(right),
        None => Mode::Ana(left),
    }
}

// What is defined or taken apart synthesises, and of what comes after it is wanted what is wanted of the whole.
fn mode_of_rest(_types: &TypeTable, mode: Mode, first: Option<TypeId>) -> Mode
    requires { IsModeOf _types.now mode }
    ensures wanted { wanted_at _types.now result ≡ wanted_of_rest (wanted_at _types.now mode) (as_list (option_map (type_at _types.now) first)) }
    ensures number { IsModeOf _types.now result }
{
    match first {
        Some(_first) => mode,
        None => Mode::Syn,
    }
}

fn mode_on_left(types: &TypeTable, mode: Mode) -> Mode
    requires { IsModeOf types.now mode }
    ensures wanted { wanted_at types.now result ≡ wanted_on_left (wanted_at types.now mode) }
    ensures number { IsModeOf types.now result }
{
    match mode {
        Mode::Syn => Mode::Syn,
        Mode::Ana(typ) => {
            let (left, _) = parts(types, types.matched_sum(typ));
            Mode::Ana(left)
        }
    }
}

fn mode_on_right(types: &TypeTable, mode: Mode) -> Mode
    requires { IsModeOf types.now mode }
    ensures wanted { wanted_at types.now result ≡ wanted_on_right (wanted_at types.now mode) }
    ensures number { IsModeOf types.now result }
{
    match mode {
        Mode::Syn => Mode::Syn,
        Mode::Ana(typ) => {
            let (_, right) = parts(types, types.matched_sum(typ));
            Mode::Ana(right)
        }
    }
}

// The parts of a type, both unknown where it has none.
fn parts(types: &TypeTable, matched: Option<(TypeId, TypeId)>) -> (TypeId, TypeId)
    requires { IfSome matched (λ p. IsTypeOf types.now p.0 × IsTypeOf types.now p.1) }
    ensures first { type_at types.now result.0 ≡ (unwrap_or {T = Typ × Typ} (option_map (λ p. (type_at types.now p.0, type_at types.now p.1)) matched) (Unknown, Unknown)).0 }
    ensures second { type_at types.now result.1 ≡ (unwrap_or {T = Typ × Typ} (option_map (λ p. (type_at types.now p.0, type_at types.now p.1)) matched) (Unknown, Unknown)).1 }
    ensures first_number { IsTypeOf types.now result.0 }
    ensures second_number { IsTypeOf types.now result.1 }
{
    match matched {
        Some(parts) => parts,
        None => (types.unknown(), types.unknown()),
    }
}
