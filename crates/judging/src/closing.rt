ghost use Rattle.std.specs.Prelude.{◌≡◌, map, length, Some, None, IfOk};
ghost use Rattle.std.specs.Option.{option_map};
ghost use Rattle.grove_sorts.specs.declared.ctor.Ctor.TheVariants.{Num};
ghost use Rattle.grove_sorts.specs.declared.sort.Sort.{Sort};
ghost use Rattle.grove_sorts.specs.Ctor.{positions, sort_of_ctor};
ghost use Rattle.mark_step.specs.declared.node.Mark.{Mark};
ghost use Rattle.mark_step.specs.Node.{demanded_at, IsDemandOf};
ghost use Rattle.type_core.specs.TypeTable.{IsTypeOf, type_at, KeepsTypes};
ghost use Rattle.marking.specs.Types.{pattern_name};
ghost use Rattle.judging.specs.Machine as machine;
ghost use Rattle.judging.specs.Machine.{made, made_of, of_type, type_added, given_of, given_by_sort, added_of, added_by_sort};
ghost use Rattle.judging.specs.Frames.{given_at, given_before, opened_at, added_at, IsFilledOf, IsOpenOf, IsClosedOf};

use crate::frame::{Closed, Given, OpenVertex};
use crate::opening::nothing;
use crate::view::view;
use ctx_table::CtxTable;
use grove_sorts::{Ctor, Ident, Sort, sort_of};
use mark_step::{Demand, Mark, Mode, Settled, settle, settle_literal};
use std::alloc::Global;
use text_parts::NoMemory;
use type_core::{TypeId, TypeTable};

// The type that a constructor makes of two types.
fn type_of(
    types: &mut TypeTable,
    ctor: &Ctor,
    first: TypeId,
    second: TypeId,
) -> Result<TypeId, NoMemory>
    requires first { IsTypeOf types.old first }
    requires second { IsTypeOf types.old second }
    ensures made { IfOk result (λ t. type_at types.new t ≡ made ctor.now (type_at types.old first) (type_at types.old second)) }
    ensures number { IfOk result (IsTypeOf types.new) }
    ensures kept { KeepsTypes types.old types.new }
{
    match ctor {
        Ctor::TNum => Ok(types.num()),
        Ctor::TBool => Ok(types.boolean()),
        Ctor::TArrow => Ok(types.arrow(first, second)?),
        Ctor::TProd => Ok(types.product(first, second)?),
        Ctor::TSum => Ok(types.sum(first, second)?),
        _ => Ok(types.unknown()),
    }
}

fn name_of(ctor: &Ctor) -> Option<&Ident>
    ensures { option_map (λ n. n.now) result ≡ pattern_name ctor.now }
{
    match ctor {
        Ctor::PVar(name) => Some(name),
        _ => None,
    }
}

// A vertex without a type, which gives this.
fn untyped<'t>(given: Given<'t>) -> Closed<'t>
    ensures mode { result.mode ≡ None }
    ensures typ { result.typ ≡ None }
    ensures mark { result.mark ≡ Mark.None }
    ensures given { result.given ≡ given.entry }
{
    Closed {
        mode: None,
        typ: None,
        mark: Mark::None,
        given,
    }
}

// An expression of which this is wanted, with its type and its mark. It gives its type.
fn expression<'t>(mode: Mode, settled: Settled) -> Closed<'t>
    ensures mode { result.mode ≡ Some mode }
    ensures typ { result.typ ≡ Some settled.typ }
    ensures mark { result.mark ≡ settled.mark }
    ensures given { result.given ≡ record { typ = settled.typ; name = None } }
{
    Closed {
        mode: Some(mode),
        typ: Some(settled.typ),
        mark: settled.mark,
        given: Given {
            typ: settled.typ,
            name: None,
        },
    }
}

fn close_expression<'t>(
    alloc: Global,
    types: &mut TypeTable,
    ctxs: &CtxTable,
    vertex: &OpenVertex<'t>,
) -> Result<Closed<'t>, NoMemory>
    requires sort { sort_of_ctor vertex.now.ctor.now ≡ Sort.Exp }
    requires vertex { IsOpenOf types.old ctxs.now vertex.now }
    requires whole { vertex.now.next ≡ length (positions vertex.now.ctor.now) }
    ensures added { IfOk result (λ c. added_at types.new c ≡ added_by_sort Sort.Exp (opened_at types.old ctxs.now vertex.now)) }
    ensures given { IfOk result (λ c. given_at types.new c.given ≡ given_by_sort Sort.Exp (opened_at types.old ctxs.now vertex.now)) }
    ensures numbers { IfOk result (IsClosedOf types.new) }
    ensures kept { KeepsTypes types.old types.new }
{
    let view = view(types, vertex);
    let settled = settle(alloc, types, ctxs, &view)?;
    Ok(expression(vertex.demand.mode, settled))
}

fn close_type<'t>(types: &mut TypeTable, vertex: &OpenVertex<'t>) -> Result<Closed<'t>, NoMemory>
    requires { IsFilledOf types.old vertex.now }
    ensures added { IfOk result (λ c. added_at types.new c ≡ type_added (made_of vertex.now.ctor.now (map (given_at types.old) (given_before vertex.now)))) }
    ensures given { IfOk result (λ c. given_at types.new c.given ≡ of_type (made_of vertex.now.ctor.now (map (given_at types.old) (given_before vertex.now)))) }
    ensures numbers { IfOk result (IsClosedOf types.new) }
    ensures kept { KeepsTypes types.old types.new }
{
    let first = vertex.given.first.typ;
    let second = vertex.given.second.typ;
    let typ = type_of(types, vertex.ctor, first, second)?;
    Ok(Closed {
        mode: None,
        typ: Some(typ),
        mark: Mark::None,
        given: Given { typ, name: None },
    })
}

/// What marking adds to the node of a vertex whose positions are all judged, and what the vertex gives. The numbers of the table keep
/// their meaning, also where memory runs out.
pub fn close<'t>(
    alloc: Global,
    types: &mut TypeTable,
    ctxs: &CtxTable,
    vertex: &OpenVertex<'t>,
) -> Result<Closed<'t>, NoMemory>
    requires vertex { IsOpenOf types.old ctxs.now vertex.now }
    requires whole { vertex.now.next ≡ length (positions vertex.now.ctor.now) }
    ensures added { IfOk result (λ c. added_at types.new c ≡ added_of (opened_at types.old ctxs.now vertex.now)) }
    ensures given { IfOk result (λ c. given_at types.new c.given ≡ given_of (opened_at types.old ctxs.now vertex.now)) }
    ensures numbers { IfOk result (IsClosedOf types.new) }
    ensures kept { KeepsTypes types.old types.new }
{
    match sort_of(vertex.ctor) {
        Sort::Exp => close_expression(alloc, types, ctxs, vertex),
        Sort::Typ => close_type(types, vertex),
        Sort::Pat => Ok(untyped(Given {
            typ: types.unknown(),
            name: name_of(vertex.ctor),
        })),
        Sort::Top => Ok(untyped(nothing(types))),
    }
}

/// What marking adds to the node of a literal with this number, of which this is demanded, and what it gives. It has no positions, so it
/// is closed at once; and it is no pattern, so what it gives refers to no vertex. The numbers of the table keep their meaning, also where
/// memory runs out.
pub fn close_literal<'t>(
    alloc: Global,
    types: &mut TypeTable,
    ctxs: &CtxTable,
    number: u64,
    demand: Demand,
) -> Result<Closed<'t>, NoMemory>
    requires { IsDemandOf types.old ctxs.now demand }
    ensures added { IfOk result (λ c. added_at types.new c ≡ added_of (machine.fresh (Num number) (demanded_at types.old ctxs.now demand))) }
    ensures given { IfOk result (λ c. given_at types.new c.given ≡ given_of (machine.fresh (Num number) (demanded_at types.old ctxs.now demand))) }
    ensures numbers { IfOk result (IsClosedOf types.new) }
    ensures kept { KeepsTypes types.old types.new }
{
    let settled = settle_literal(alloc, types, demand.mode)?;
    Ok(expression(demand.mode, settled))
}
