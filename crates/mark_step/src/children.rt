ghost use Rattle.std.specs.Prelude.{◌≡◌, List, IfOk};
ghost use Rattle.std.specs.Option.{option_map};
ghost use Rattle.grove_sorts.specs.declared.sort.Sort.TheVariants.{Exp};
ghost use Rattle.grove_sorts.specs.Ctor.{sort_of_ctor};
ghost use Rattle.type_core.specs.declared.former.Former.TheVariants.{Arrow, Product, Sum};
ghost use Rattle.type_core.specs.Typ.{Typ};
ghost use Rattle.type_core.specs.TypeTable.{IsTypeOf, type_at, KeepsTypes};
ghost use Rattle.ctx_table.specs.CtxTable.{IsContextOf, context_at, KeepsContexts};
ghost use Rattle.mark_step.specs.Scope.{bind, scope_at};
ghost use Rattle.mark_step.specs.Step.{demand, parts_or_unknown, wanted_next, wanted_of_body, wanted_in_application, wanted_in_conditional, wanted_in_pair, wanted_of_rest, wanted_on_left, wanted_on_right, scope_next, scope_in_let, scope_in_case};
ghost use Rattle.mark_step.specs.Node.{wanted_at, bound_at, IsScopeOf, expression_at, demanded_at, IsModeOf, AreNumbers, IsNodeOf, IsDemandOf, sort_at_index, AreDoneBefore, types_before};

use crate::node::{Demand, Mode, NodeView};
use ctx_table::{CtxId, CtxTable};
use grove_sorts::{Ctor, Ident};
use std::alloc::Global;
use text_parts::NoMemory;
use type_core::{TypeId, TypeTable};

/// How the child at a position is judged, once all expressions at earlier positions have types. The numbers of both tables keep their
/// meaning, also where memory runs out. The tables grow by their own allocators.
pub fn child_demand(
    _alloc: Global,
    types: &mut TypeTable,
    ctxs: &mut CtxTable,
    node: &NodeView,
    index: usize,
) -> Result<Demand, NoMemory>
    requires expression { sort_of_ctor node.now.ctor.now ≡ Exp }
    requires child { sort_at_index node.now.ctor.now index ≡ Some Exp }
    requires earlier { AreDoneBefore node.now index }
    requires numbers { IsNodeOf types.old ctxs.old node.now }
    ensures demand { IfOk result (λ d. demanded_at types.new ctxs.new d
        ≡ demand (expression_at types.old ctxs.old node.now) (types_before types.old node.now index)) }
    ensures numbers { IfOk result (IsDemandOf types.new ctxs.new) }
    ensures types { KeepsTypes types.old types.new }
    ensures contexts { KeepsContexts ctxs.old ctxs.new }
{
    let mode = child_mode(types, node, index);
    let ctx = child_context(types, ctxs, node, index)?;
    Ok(Demand { ctx, mode })
}

// The context of a child.
fn child_context(
    types: &TypeTable,
    ctxs: &mut CtxTable,
    node: &NodeView,
    index: usize,
) -> Result<CtxId, NoMemory>
    requires earlier { AreDoneBefore node.now index }
    requires numbers { IsNodeOf types.now ctxs.old node.now }
    ensures number { IfOk result (IsScopeOf types.now ctxs.new) }
    ensures scope { IfOk result (λ id. scope_at types.now ctxs.new id
        ≡ scope_next node.now.ctor.now (bound_at types.now node.now) (scope_at types.now ctxs.old node.now.ctx) (types_before types.now node.now index)) }
    ensures kept { KeepsContexts ctxs.old ctxs.new }
{
    match node.ctor {
        Ctor::Lam => bind(types, ctxs, node.ctx, node.binder.name, node.binder.typ),
        Ctor::Let => context_in_let(types, ctxs, node, index),
        Ctor::Case => context_in_case(types, ctxs, node, index),
        _ => Ok(node.ctx),
    }
}

// The context with the name in front, if there is one.
fn bind(
    types: &TypeTable,
    ctxs: &mut CtxTable,
    ctx: CtxId,
    name: Option<&Ident>,
    typ: TypeId,
) -> Result<CtxId, NoMemory>
    requires ctx { IsScopeOf types.now ctxs.old ctx }
    requires typ { IsTypeOf types.now typ }
    ensures number { IfOk result (IsScopeOf types.now ctxs.new) }
    ensures scope { IfOk result (λ id. scope_at types.now ctxs.new id ≡ bind (option_map (λ n. n.now) name.entry) (type_at types.now typ) (scope_at types.now ctxs.old ctx)) }
    ensures kept { KeepsContexts ctxs.old ctxs.new }
{
    match name {
        Some(name) => Ok(ctxs.extend(ctx, *name, typ)?),
        None => Ok(ctx),
    }
}

// The body has the name that is bound to the definition.
fn context_in_let(
    types: &TypeTable,
    ctxs: &mut CtxTable,
    node: &NodeView,
    index: usize,
) -> Result<CtxId, NoMemory>
    requires ctor { node.now.ctor.now ≡ Ctor.Let }
    requires earlier { AreDoneBefore node.now index }
    requires numbers { IsNodeOf types.now ctxs.old node.now }
    ensures number { IfOk result (IsScopeOf types.now ctxs.new) }
    ensures scope { IfOk result (λ id. scope_at types.now ctxs.new id
        ≡ scope_in_let (bound_at types.now node.now) (scope_at types.now ctxs.old node.now.ctx) (types_before types.now node.now index)) }
    ensures kept { KeepsContexts ctxs.old ctxs.new }
{
    if index < 2 {
        return Ok(node.ctx);
    }
    bind(types, ctxs, node.ctx, node.binder.name, node.child_type(1))
}

// Each body has the name that is bound to its part of what the case takes apart.
fn context_in_case(
    types: &TypeTable,
    ctxs: &mut CtxTable,
    node: &NodeView,
    index: usize,
) -> Result<CtxId, NoMemory>
    requires ctor { node.now.ctor.now ≡ Ctor.Case }
    requires earlier { AreDoneBefore node.now index }
    requires numbers { IsNodeOf types.now ctxs.old node.now }
    ensures number { IfOk result (IsScopeOf types.now ctxs.new) }
    ensures scope { IfOk result (λ id. scope_at types.now ctxs.new id
        ≡ scope_in_case (bound_at types.now node.now) (scope_at types.now ctxs.old node.now.ctx) (types_before types.now node.now index)) }
    ensures kept { KeepsContexts ctxs.old ctxs.new }
{
    if index == 0 {
        return Ok(node.ctx);
    }
    let (left, right) = sum_or_unknown(types, node.child_type(0));
    if index < 3 {
        return bind(types, ctxs, node.ctx, node.binder.name, left);
    }
    bind(types, ctxs, node.ctx, node.second.name, right)
}

fn child_mode(types: &TypeTable, node: &NodeView, index: usize) -> Mode
    requires earlier { AreDoneBefore node.now index }
    requires mode { IsModeOf types.now node.now.mode }
    requires done { AreNumbers types.now node.now.done }
    ensures wanted { wanted_at types.now result
        ≡ wanted_next node.now.ctor.now (wanted_at types.now node.now.mode) (types_before types.now node.now index) }
    ensures number { IsModeOf types.now result }
{
    match node.ctor {
        Ctor::Lam => body_mode(types, node.mode),
        Ctor::Ap => mode_in_application(types, node, index),
        Ctor::Plus => Mode::Ana(types.num()),
        Ctor::Choose => mode_in_conditional(types, node, index),
        Ctor::Pair => mode_in_pair(types, node, index),
        Ctor::Root | Ctor::Fst | Ctor::Snd => Mode::Syn,
        Ctor::Var(_) | Ctor::Num(_) | Ctor::LitTrue | Ctor::LitFalse => Mode::Syn,
        Ctor::Let => mode_in_let(node, index),
        Ctor::Inl => mode_on_left(types, node.mode),
        Ctor::Inr => mode_on_right(types, node.mode),
        Ctor::Case => mode_in_case(node, index),
        Ctor::PVar(_) | Ctor::TNum | Ctor::TBool => Mode::Syn,
        Ctor::TArrow | Ctor::TProd | Ctor::TSum => Mode::Syn,
    }
}

fn body_mode(types: &TypeTable, mode: Mode) -> Mode
    requires { IsModeOf types.now mode }
    ensures wanted { wanted_at types.now result ≡ wanted_of_body (wanted_at types.now mode) }
    ensures number { IsModeOf types.now result }
{
    match mode {
        Mode::Syn => Mode::Syn,
        Mode::Ana(typ) => Mode::Ana(arrow_or_unknown(types, typ).1),
    }
}

// The function is synthesised, and the argument analysed against what the function takes.
fn mode_in_application(types: &TypeTable, node: &NodeView, index: usize) -> Mode
    requires ctor { node.now.ctor.now ≡ Ctor.Ap }
    requires earlier { AreDoneBefore node.now index }
    requires done { AreNumbers types.now node.now.done }
    ensures wanted { wanted_at types.now result ≡ wanted_in_application (types_before types.now node.now index) }
    ensures number { IsModeOf types.now result }
{
    if index == 0 {
        return Mode::Syn;
    }
    Mode::Ana(arrow_or_unknown(types, node.child_type(0)).0)
}

// The condition is a truth value, and of the branches is wanted what is wanted of the conditional.
fn mode_in_conditional(types: &TypeTable, node: &NodeView, index: usize) -> Mode
    requires ctor { node.now.ctor.now ≡ Ctor.Choose }
    requires mode { IsModeOf types.now node.now.mode }
    ensures wanted { wanted_at types.now result
        ≡ wanted_in_conditional (wanted_at types.now node.now.mode) (types_before types.now node.now index) }
    ensures number { IsModeOf types.now result }
{
    if index == 0 {
        return Mode::Ana(types.boolean());
    }
    node.mode
}

fn mode_in_pair(types: &TypeTable, node: &NodeView, index: usize) -> Mode
    requires ctor { node.now.ctor.now ≡ Ctor.Pair }
    requires mode { IsModeOf types.now node.now.mode }
    ensures wanted { wanted_at types.now result
        ≡ wanted_in_pair (wanted_at types.now node.now.mode) (types_before types.now node.now index) }
    ensures number { IsModeOf types.now result }
{
    let Mode::Ana(typ) = node.mode else {
        return Mode::Syn;
    };
    let (first, second) = product_or_unknown(types, typ);
    if index == 0 {
        return Mode::Ana(first);
    }
    Mode::Ana(second)
}

// The definition is synthesised, and of the body is wanted what is wanted of the whole.
fn mode_in_let(node: &NodeView, index: usize) -> Mode
    requires { node.now.ctor.now ≡ Ctor.Let }
    ensures wanted { (types : List Typ) → wanted_at types result ≡ wanted_of_rest (wanted_at types node.now.mode) (types_before types node.now index) }
    ensures number { (types : List Typ) → IsModeOf types node.now.mode → IsModeOf types result }
{
    if index < 2 {
        return Mode::Syn;
    }
    node.mode
}

// What the case takes apart is synthesised, and of its bodies is wanted what is wanted of the whole.
fn mode_in_case(node: &NodeView, index: usize) -> Mode
    requires { node.now.ctor.now ≡ Ctor.Case }
    ensures wanted { (types : List Typ) → wanted_at types result ≡ wanted_of_rest (wanted_at types node.now.mode) (types_before types node.now index) }
    ensures number { (types : List Typ) → IsModeOf types node.now.mode → IsModeOf types result }
{
    if index == 0 {
        return Mode::Syn;
    }
    node.mode
}

fn mode_on_left(types: &TypeTable, mode: Mode) -> Mode
    requires { IsModeOf types.now mode }
    ensures wanted { wanted_at types.now result ≡ wanted_on_left (wanted_at types.now mode) }
    ensures number { IsModeOf types.now result }
{
    match mode {
        Mode::Syn => Mode::Syn,
        Mode::Ana(typ) => Mode::Ana(sum_or_unknown(types, typ).0),
    }
}

fn mode_on_right(types: &TypeTable, mode: Mode) -> Mode
    requires { IsModeOf types.now mode }
    ensures wanted { wanted_at types.now result ≡ wanted_on_right (wanted_at types.now mode) }
    ensures number { IsModeOf types.now result }
{
    match mode {
        Mode::Syn => Mode::Syn,
        Mode::Ana(typ) => Mode::Ana(sum_or_unknown(types, typ).1),
    }
}

// What a function of the type takes and gives, both unknown where it is no function's.
fn arrow_or_unknown(types: &TypeTable, typ: TypeId) -> (TypeId, TypeId)
    requires { IsTypeOf types.now typ }
    ensures from { type_at types.now result.0 ≡ (parts_or_unknown Arrow (type_at types.now typ)).0 }
    ensures to { type_at types.now result.1 ≡ (parts_or_unknown Arrow (type_at types.now typ)).1 }
    ensures from_number { IsTypeOf types.now result.0 }
    ensures to_number { IsTypeOf types.now result.1 }
{
    match types.matched_arrow(typ) {
        Some(parts) => parts,
        None => (types.unknown(), types.unknown()),
    }
}

// The parts of a pair of the type, both unknown where it is no pair's.
fn product_or_unknown(types: &TypeTable, typ: TypeId) -> (TypeId, TypeId)
    requires { IsTypeOf types.now typ }
    ensures first { type_at types.now result.0 ≡ (parts_or_unknown Product (type_at types.now typ)).0 }
    ensures second { type_at types.now result.1 ≡ (parts_or_unknown Product (type_at types.now typ)).1 }
    ensures first_number { IsTypeOf types.now result.0 }
    ensures second_number { IsTypeOf types.now result.1 }
{
    match types.matched_product(typ) {
        Some(parts) => parts,
        None => (types.unknown(), types.unknown()),
    }
}

// The parts of a sum of the type, both unknown where it is no sum's.
fn sum_or_unknown(types: &TypeTable, typ: TypeId) -> (TypeId, TypeId)
    requires { IsTypeOf types.now typ }
    ensures left { type_at types.now result.0 ≡ (parts_or_unknown Sum (type_at types.now typ)).0 }
    ensures right { type_at types.now result.1 ≡ (parts_or_unknown Sum (type_at types.now typ)).1 }
    ensures left_number { IsTypeOf types.now result.0 }
    ensures right_number { IsTypeOf types.now result.1 }
{
    match types.matched_sum(typ) {
        Some(parts) => parts,
        None => (types.unknown(), types.unknown()),
    }
}
