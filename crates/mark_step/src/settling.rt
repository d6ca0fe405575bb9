ghost use Rattle.std.specs.Prelude.{◌≡◌, ℕ, [], IfOk, IfSome};
ghost use Rattle.std.specs.Option.{option_map};
ghost use Rattle.grove_sorts.specs.declared.ctor.Ctor.TheVariants.{Num};
ghost use Rattle.grove_sorts.specs.declared.sort.Sort.TheVariants.{Exp};
ghost use Rattle.grove_sorts.specs.Ctor.{sort_of_ctor};
ghost use Rattle.type_core.specs.declared.former.Former.TheVariants.{Arrow, Product, Sum};
ghost use Rattle.type_core.specs.Typ.{matched_parts, is_consistent, meet};
ghost use Rattle.type_core.specs.TypeTable.{IsTypeOf, type_at, KeepsTypes};
ghost use Rattle.mark_step.specs.Scope.{Scope, scope_at, type_of_name};
ghost use Rattle.mark_step.specs.Expression.{Bound};
ghost use Rattle.mark_step.specs.Step.{settled, analysed, synthesised, or_mark, function_mark, unless_matched, case_result, mark_against};
ghost use Rattle.mark_step.specs.Node.{wanted_at, bound_at, expression_at, marked_at, IsModeOf, IsScopeOf, IsNodeOf, AreDone, types_done};

use crate::node::{Mark, Mode, NodeView, Settled};
use ctx_table::{CtxId, CtxTable};
use grove_sorts::{Ctor, Ident};
use std::alloc::Global;
use text_parts::NoMemory;
use type_core::{TypeId, TypeTable};

/// The type and the mark of a node whose children that are expressions all have types. The numbers of the table of types keep their
/// meaning, also where memory runs out.
pub fn settle(
    alloc: Global,
    types: &mut TypeTable,
    ctxs: &CtxTable,
    node: &NodeView,
) -> Result<Settled, NoMemory>
    requires expression { sort_of_ctor node.now.ctor.now ≡ Exp }
    requires done { AreDone node.now }
    requires numbers { IsNodeOf types.old ctxs.now node.now }
    ensures settled { IfOk result (λ s. marked_at types.new s
        ≡ settled (expression_at types.old ctxs.now node.now) (types_done types.old node.now)) }
    ensures number { IfOk result (λ s. IsTypeOf types.new s.typ) }
    ensures types { KeepsTypes types.old types.new }
{
    match node.mode {
        Mode::Syn => synthesise(alloc, types, ctxs, node),
        Mode::Ana(typ) => analyse(alloc, types, ctxs, node, typ),
    }
}

/// The type and the mark of a literal, as `settle` has them. It has no children and binds nothing, so no node is asked for: only what is
/// wanted of it matters.
pub fn settle_literal(alloc: Global, types: &mut TypeTable, mode: Mode) -> Result<Settled, NoMemory>
    requires { IsModeOf types.old mode }
    ensures settled { (number : ℕ) (scope : Scope) (bound : Bound) → IfOk result (λ s. marked_at types.new s
        ≡ settled (record { ctor = Num number; scope = scope; wanted = wanted_at types.old mode; bound = bound }) []) }
    ensures number { IfOk result (λ s. IsTypeOf types.new s.typ) }
    ensures unchanged { types.new ≡ types.old }
{
    let found = unmarked(types.num());
    match mode {
        Mode::Syn => Ok(found),
        Mode::Ana(typ) => against(alloc, types, found, typ),
    }
}

// What the node gets that is analysed against a type.
fn analyse(
    alloc: Global,
    types: &mut TypeTable,
    ctxs: &CtxTable,
    node: &NodeView,
    typ: TypeId,
) -> Result<Settled, NoMemory>
    requires expression { sort_of_ctor node.now.ctor.now ≡ Exp }
    requires done { AreDone node.now }
    requires numbers { IsNodeOf types.old ctxs.now node.now }
    requires typ { IsTypeOf types.old typ }
    ensures analysed { IfOk result (λ s. marked_at types.new s
        ≡ analysed node.now.ctor.now (scope_at types.old ctxs.now node.now.ctx) (bound_at types.old node.now)
        (type_at types.old typ) (types_done types.old node.now)) }
    ensures number { IfOk result (λ s. IsTypeOf types.new s.typ) }
    ensures kept { KeepsTypes types.old types.new }
{
    match node.ctor {
        Ctor::Lam => function_against(alloc, types, node.binder.typ, typ),
        Ctor::Choose => Ok(unmarked(typ)),
        Ctor::Pair => Ok(pair_against(types, typ)),
        Ctor::Let => Ok(unmarked(typ)),
        Ctor::Inl | Ctor::Inr => Ok(injection_against(types, typ)),
        Ctor::Case => Ok(case_against(types, node.child_type(0), typ)),
        _ => {
            let found = synthesise(alloc, types, ctxs, node)?;
            against(alloc, types, found, typ)
        }
    }
}

// What the node synthesises.
fn synthesise(
    alloc: Global,
    types: &mut TypeTable,
    ctxs: &CtxTable,
    node: &NodeView,
) -> Result<Settled, NoMemory>
    requires expression { sort_of_ctor node.now.ctor.now ≡ Exp }
    requires done { AreDone node.now }
    requires numbers { IsNodeOf types.old ctxs.now node.now }
    ensures synthesised { IfOk result (λ s. marked_at types.new s
        ≡ synthesised node.now.ctor.now (scope_at types.old ctxs.now node.now.ctx) (bound_at types.old node.now)
        (types_done types.old node.now)) }
    ensures number { IfOk result (λ s. IsTypeOf types.new s.typ) }
    ensures kept { KeepsTypes types.old types.new }
{
    match *node.ctor {
        Ctor::Var(name) => Ok(variable(types, ctxs, node.ctx, &name)),
        Ctor::Lam => Ok(unmarked(types.arrow(node.binder.typ, node.child_type(2))?)),
        Ctor::Ap => Ok(application(types, node.child_type(0))),
        Ctor::Num(_) | Ctor::Plus => Ok(unmarked(types.num())),
        Ctor::LitTrue | Ctor::LitFalse => Ok(unmarked(types.boolean())),
        Ctor::Choose => conditional(alloc, types, node.child_type(1), node.child_type(2)),
        Ctor::Pair => Ok(unmarked(types.product(node.child_type(0), node.child_type(1))?)),
        Ctor::Fst => Ok(first_part(types, node.child_type(0))),
        Ctor::Snd => Ok(second_part(types, node.child_type(0))),
        Ctor::Let => Ok(unmarked(node.child_type(2))),
        Ctor::Inl => Ok(unmarked(types.sum(node.child_type(0), types.unknown())?)),
        Ctor::Inr => Ok(unmarked(types.sum(types.unknown(), node.child_type(0))?)),
        Ctor::Case => case(
            alloc,
            types,
            node.child_type(0),
            node.child_type(2),
            node.child_type(4),
        ),
        Ctor::Root | Ctor::PVar(_) | Ctor::TNum | Ctor::TBool => unreachable!(),
        Ctor::TArrow | Ctor::TProd | Ctor::TSum => unreachable!(),
    }
}

fn unmarked(typ: TypeId) -> Settled
    ensures typ { result.typ ≡ typ }
    ensures mark { result.mark ≡ Mark.None }
{
    Settled {
        typ,
        mark: Mark::None,
    }
}

// The type, where there is one, and else the unknown type with the mark.
fn or_mark(types: &TypeTable, typ: Option<TypeId>, mark: Mark) -> Settled
    requires { IfSome typ (IsTypeOf types.now) }
    ensures marked { marked_at types.now result ≡ or_mark (option_map (type_at types.now) typ) mark }
    ensures number { IsTypeOf types.now result.typ }
{
    match typ {
        Some(typ) => unmarked(typ),
        None => Settled {
            typ: types.unknown(),
            mark,
        },
    }
}

#[tactic(auto, using(crate::proofs::ScopeLemmas::found_in_scope, crate::proofs::ScopeLemmas::found_number))]
fn variable(types: &TypeTable, ctxs: &CtxTable, ctx: CtxId, name: &Ident) -> Settled
    requires { IsScopeOf types.now ctxs.now ctx }
    ensures marked { marked_at types.now result ≡ or_mark (type_of_name (scope_at types.now ctxs.now ctx) name.now) Mark.Free }
    ensures number { IsTypeOf types.now result.typ }
{
    or_mark(types, ctxs.look_up(ctx, name), Mark::Free)
}

// What a function of the type gives.
fn application(types: &TypeTable, function: TypeId) -> Settled
    requires { IsTypeOf types.now function }
    ensures marked { marked_at types.now result
        ≡ or_mark (option_map (λ p. p.1) (matched_parts Arrow (type_at types.now function))) Mark.NotArrow }
    ensures number { IsTypeOf types.now result.typ }
{
    let to = types.matched_arrow(function).map(|parts| parts.1);
    or_mark(types, to, Mark::NotArrow)
}

// What branches of these types give.
fn conditional(
    alloc: Global,
    types: &mut TypeTable,
    when_true: TypeId,
    when_false: TypeId,
) -> Result<Settled, NoMemory>
    requires when_true { IsTypeOf types.old when_true }
    requires when_false { IsTypeOf types.old when_false }
    ensures marked { IfOk result (λ s. marked_at types.new s
        ≡ or_mark (meet (type_at types.old when_true) (type_at types.old when_false)) Mark.Branches) }
    ensures number { IfOk result (λ s. IsTypeOf types.new s.typ) }
    ensures kept { KeepsTypes types.old types.new }
{
    let both = types.meet(alloc, when_true, when_false)?;
    Ok(or_mark(types, both, Mark::Branches))
}

// What a case gives, by the types of what it takes apart and of its bodies.
fn case(
    alloc: Global,
    types: &mut TypeTable,
    on: TypeId,
    when_left: TypeId,
    when_right: TypeId,
) -> Result<Settled, NoMemory>
    requires on { IsTypeOf types.old on }
    requires when_left { IsTypeOf types.old when_left }
    requires when_right { IsTypeOf types.old when_right }
    ensures marked { IfOk result (λ s. marked_at types.new s
        ≡ case_result (matched_parts Sum (type_at types.old on)) (meet (type_at types.old when_left) (type_at types.old when_right))) }
    ensures number { IfOk result (λ s. IsTypeOf types.new s.typ) }
    ensures kept { KeepsTypes types.old types.new }
{
    match types.matched_sum(on) {
        Some(_) => conditional(alloc, types, when_left, when_right),
        None => Ok(Settled {
            typ: types.unknown(),
            mark: Mark::NotSum,
        }),
    }
}

fn first_part(types: &TypeTable, pair: TypeId) -> Settled
    requires { IsTypeOf types.now pair }
    ensures marked { marked_at types.now result
        ≡ or_mark (option_map (λ p. p.0) (matched_parts Product (type_at types.now pair))) Mark.NotProduct }
    ensures number { IsTypeOf types.now result.typ }
{
    let first = types.matched_product(pair).map(|parts| parts.0);
    or_mark(types, first, Mark::NotProduct)
}

fn second_part(types: &TypeTable, pair: TypeId) -> Settled
    requires { IsTypeOf types.now pair }
    ensures marked { marked_at types.now result
        ≡ or_mark (option_map (λ p. p.1) (matched_parts Product (type_at types.now pair))) Mark.NotProduct }
    ensures number { IsTypeOf types.now result.typ }
{
    let second = types.matched_product(pair).map(|parts| parts.1);
    or_mark(types, second, Mark::NotProduct)
}

// A function that ascribes a type, against another.
fn function_against(
    alloc: Global,
    types: &mut TypeTable,
    ascribed: TypeId,
    typ: TypeId,
) -> Result<Settled, NoMemory>
    requires ascribed { IsTypeOf types.old ascribed }
    requires typ { IsTypeOf types.old typ }
    ensures typ { IfOk result (λ s. s.typ ≡ typ) }
    ensures mark { IfOk result (λ s. s.mark
        ≡ function_mark (type_at types.old ascribed) (matched_parts Arrow (type_at types.old typ))) }
    ensures unchanged { types.new ≡ types.old }
{
    let Some((from, _)) = types.matched_arrow(typ) else {
        return Ok(Settled {
            typ,
            mark: Mark::LamAgainst,
        });
    };
    if !types.relate(alloc, ascribed, from)? {
        return Ok(Settled {
            typ,
            mark: Mark::Ascription,
        });
    }
    Ok(unmarked(typ))
}

fn pair_against(types: &TypeTable, typ: TypeId) -> Settled
    requires { IsTypeOf types.now typ }
    ensures typ { result.typ ≡ typ }
    ensures mark { result.mark ≡ unless_matched Mark.PairAgainst (matched_parts Product (type_at types.now typ)) }
{
    let mark = match types.matched_product(typ) {
        Some(_) => Mark::None,
        None => Mark::PairAgainst,
    };
    Settled { typ, mark }
}

fn injection_against(types: &TypeTable, typ: TypeId) -> Settled
    requires { IsTypeOf types.now typ }
    ensures typ { result.typ ≡ typ }
    ensures mark { result.mark ≡ unless_matched Mark.InjAgainst (matched_parts Sum (type_at types.now typ)) }
{
    let mark = match types.matched_sum(typ) {
        Some(_) => Mark::None,
        None => Mark::InjAgainst,
    };
    Settled { typ, mark }
}

// A case on something of a type, against another. Its bodies are analysed against that.
fn case_against(types: &TypeTable, on: TypeId, typ: TypeId) -> Settled
    requires { IsTypeOf types.now on }
    ensures typ { result.typ ≡ typ }
    ensures mark { result.mark ≡ unless_matched Mark.NotSum (matched_parts Sum (type_at types.now on)) }
{
    let mark = match types.matched_sum(on) {
        Some(_) => Mark::None,
        None => Mark::NotSum,
    };
    Settled { typ, mark }
}

// What was synthesised, against a type. A mark of synthesis goes first.
fn against(
    alloc: Global,
    types: &mut TypeTable,
    found: Settled,
    typ: TypeId,
) -> Result<Settled, NoMemory>
    requires found { IsTypeOf types.old found.typ }
    requires typ { IsTypeOf types.old typ }
    ensures typ { IfOk result (λ s. s.typ ≡ found.typ) }
    ensures mark { IfOk result (λ s. s.mark
        ≡ mark_against found.mark (is_consistent (type_at types.old found.typ) (type_at types.old typ))) }
    ensures unchanged { types.new ≡ types.old }
{
    if found.mark == Mark::None && !types.relate(alloc, found.typ, typ)? {
        return Ok(Settled {
            typ: found.typ,
            mark: Mark::Inconsistent,
        });
    }
    Ok(found)
}
