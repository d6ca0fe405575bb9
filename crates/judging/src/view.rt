ghost use Rattle.std.specs.Prelude.{◌≡◌, ◌<◌, ◌≤◌, ℕ, map, length, slice_get, Some, None};
ghost use Rattle.std.specs.Option.{option_map};
ghost use Rattle.std.specs.List.{slice_index_or};
ghost use Rattle.grove_sorts.specs.Ctor.{positions};
ghost use Rattle.type_core.specs.Typ.{Unknown};
ghost use Rattle.type_core.specs.TypeTable.{IsTypeOf, type_at};
ghost use Rattle.mark_step.specs.Node.{bound_at, sort_at_index};
ghost use Rattle.judging.specs.Machine.{bound_by};
ghost use Rattle.judging.specs.Frames.{given_at, given_before, IsFilledOf, IsViewOf};

use crate::frame::OpenVertex;
use grove_sorts::{Ctor, Ident, Sort, WIDEST, place_at};
use mark_step::{Binder, NodeView};
use type_core::{TypeId, TypeTable};

// The sort of the children at the position with this index.
pub(crate) fn sort_at_place(ctor: &Ctor, index: usize) -> Option<Sort>
    ensures { result ≡ sort_at_index ctor.now index }
{
    let (_, sort) = place_at(ctor, index)?;
    Some(sort)
}

// What the vertex binds, a case in its left body, as far as its positions are judged.
fn binder<'t>(types: &TypeTable, vertex: &OpenVertex<'t>) -> Binder<'t>
    requires { IsFilledOf types.now vertex.now }
    ensures name { option_map (λ n. n.now) result.name ≡ (bound_by vertex.now.ctor.now (map (given_at types.now) (given_before vertex.now))).name }
    ensures typ { type_at types.now result.typ ≡ (bound_by vertex.now.ctor.now (map (given_at types.now) (given_before vertex.now))).typ }
    ensures number { IsTypeOf types.now result.typ }
{
    match vertex.ctor {
        Ctor::Lam => Binder {
            name: vertex.given.first.name,
            typ: vertex.given.second.typ,
        },
        Ctor::Let => named(types, vertex.given.first.name),
        Ctor::Case => named(types, vertex.given.second.name),
        _ => named(types, None),
    }
}

// What a case binds in its right body.
fn second_binder<'t>(types: &TypeTable, vertex: &OpenVertex<'t>) -> Binder<'t>
    requires { IsFilledOf types.now vertex.now }
    ensures { option_map (λ n. n.now) result.name ≡ (bound_by vertex.now.ctor.now (map (given_at types.now) (given_before vertex.now))).second }
{
    match vertex.ctor {
        Ctor::Case => named(types, vertex.given.fourth.name),
        _ => named(types, None),
    }
}

// A binder that ascribes no type.
fn named<'t>(types: &TypeTable, name: Option<&'t Ident>) -> Binder<'t>
    ensures name { option_map (λ n. n.now) result.name ≡ option_map (λ n. n.now) name.entry }
    ensures typ { type_at types.now result.typ ≡ Unknown }
    ensures number { IsTypeOf types.now result.typ }
{
    Binder {
        name,
        typ: types.unknown(),
    }
}

// The type that the position with an index gave, where it is one of those before the next one.
#[inline(always)]
fn type_before(next: usize, index: usize, typ: TypeId) -> Option<TypeId>
    ensures given { index < next → result ≡ Some typ }
    ensures none { next ≤ index → result ≡ None }
{
    if index < next { Some(typ) } else { None }
}

// The types that the positions so far gave, by their index.
fn types_so_far(vertex: &OpenVertex) -> [Option<TypeId>; WIDEST]
    requires { vertex.now.next ≤ length (positions vertex.now.ctor.now) }
    ensures { (i : ℕ) → slice_index_or result i None ≡ option_map (λ g. g.typ) (slice_get (given_before vertex.now) i) }
{
    let given = &vertex.given;
    let next = vertex.next;
    [
        type_before(next, 0, given.first.typ),
        type_before(next, 1, given.second.typ),
        type_before(next, 2, given.third.typ),
        type_before(next, 3, given.fourth.typ),
        type_before(next, 4, given.fifth.typ),
    ]
}

// The vertex as its rule sees it.
pub(crate) fn view<'t>(types: &TypeTable, vertex: &OpenVertex<'t>) -> NodeView<'t>
    requires { IsFilledOf types.now vertex.now }
    ensures { IsViewOf types.now vertex.now result }
{
    NodeView {
        ctor: vertex.ctor,
        ctx: vertex.demand.ctx,
        mode: vertex.demand.mode,
        binder: binder(types, vertex),
        second: second_binder(types, vertex),
        done: types_so_far(vertex),
    }
}
