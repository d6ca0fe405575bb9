ghost use Rattle.std.specs.Prelude.{◌≡◌, ◌<◌, List, length, unwrap_or, IfOk, IfSome};
ghost use Rattle.std.specs.Option.{option_map};
ghost use Rattle.grove_sorts.specs.declared.sort.Sort.{Sort};
ghost use Rattle.grove_sorts.specs.Ctor.{positions};
ghost use Rattle.type_core.specs.TypeTable.{KeepsTypes};
ghost use Rattle.ctx_table.specs.Context.{Context};
ghost use Rattle.ctx_table.specs.CtxTable.{KeepsContexts};
ghost use Rattle.mark_step.specs.Node.{demanded_at, IsDemandOf, sort_at_index};
ghost use Rattle.judging.specs.Machine as machine;
ghost use Rattle.judging.specs.Machine.{demanded_by};
ghost use Rattle.judging.specs.Frames.{given_at, opened_at, left_of, demanded_of, with_given, filled_with, IsGivenOf, IsOpenOf, IsFrameOf};

use crate::frame::{Frame, Given, GivenRow, OpenVertex};
use crate::view::{sort_at_place, view};
use ctx_table::CtxTable;
use grove_sorts::{Ctor, Sort, sort_of};
use mark_step::{Demand, Mode, child_demand};
use std::alloc::Global;
use text_parts::NoMemory;
use type_core::TypeTable;

/// What is given where there is neither a type nor a name.
pub fn nothing<'t>(types: &TypeTable) -> Given<'t>
    ensures given { given_at types.now result ≡ machine.nothing }
    ensures number { IsGivenOf types.now result }
{
    Given {
        typ: types.unknown(),
        name: None,
    }
}

/// A vertex none of whose positions is judged, and of which this is demanded.
pub fn fresh<'t>(types: &TypeTable, ctor: &'t Ctor, demand: Demand) -> OpenVertex<'t>
    ensures opened { (ctxs : List Context) → opened_at types.now ctxs result ≡ machine.fresh ctor.now (demanded_at types.now ctxs demand) }
    ensures left { left_of result ≡ positions ctor.now }
    ensures numbers { (ctxs : List Context) → IsDemandOf types.now ctxs demand → IsOpenOf types.now ctxs result }
{
    let nothing = nothing(types);
    OpenVertex {
        ctor,
        demand,
        given: GivenRow {
            first: nothing,
            second: nothing,
            third: nothing,
            fourth: nothing,
            fifth: nothing,
        },
        next: 0,
    }
}

// The row with what the position with an index gave.
fn with_given<'t>(row: GivenRow<'t>, index: usize, given: Given<'t>) -> GivenRow<'t>
    ensures { result ≡ with_given row.entry index given.entry }
{
    match index {
        0 => GivenRow {
            first: given,
            ..row
        },
        1 => GivenRow {
            second: given,
            ..row
        },
        2 => GivenRow {
            third: given,
            ..row
        },
        3 => GivenRow {
            fourth: given,
            ..row
        },
        4 => GivenRow {
            fifth: given,
            ..row
        },
        _ => row,
    }
}

/// Gives a vertex what the child at its next position has given.
pub fn fill<'t>(vertex: &mut OpenVertex<'t>, given: Given<'t>)
    requires { vertex.old.next < length (positions vertex.old.ctor.now) }
    ensures { vertex.new ≡ filled_with given.entry vertex.old }
{
    vertex.given = with_given(vertex.given, vertex.next, given);
    vertex.next += 1;
}

/// What is demanded at the next position of a vertex. The numbers of both tables keep their meaning, also where memory runs out.
pub fn demand_at(
    alloc: Global,
    types: &mut TypeTable,
    ctxs: &mut CtxTable,
    vertex: &OpenVertex,
) -> Result<Demand, NoMemory>
    requires vertex { IsOpenOf types.old ctxs.old vertex.now }
    requires next { vertex.now.next < length (positions vertex.now.ctor.now) }
    ensures demand { IfOk result (λ d. demanded_at types.new ctxs.new d
        ≡ demanded_by (opened_at types.old ctxs.old vertex.now) (unwrap_or (sort_at_index vertex.now.ctor.now vertex.now.next) Sort.Top)) }
    ensures number { IfOk result (IsDemandOf types.new ctxs.new) }
    ensures types { KeepsTypes types.old types.new }
    ensures contexts { KeepsContexts ctxs.old ctxs.new }
{
    if sort_of(vertex.ctor) == Sort::Exp
        && sort_at_place(vertex.ctor, vertex.next) == Some(Sort::Exp)
    {
        let view = view(types, vertex);
        return Ok(child_demand(alloc, types, ctxs, &view, vertex.next)?);
    }
    Ok(Demand {
        ctx: vertex.demand.ctx,
        mode: Mode::Syn,
    })
}

/// What is demanded of the next node where this is the innermost frame; it is the head of the tree where nothing is open. The numbers of
/// both tables keep their meaning, also where memory runs out.
pub fn demand_next(
    alloc: Global,
    types: &mut TypeTable,
    ctxs: &mut CtxTable,
    innermost: Option<&Frame>,
) -> Result<Demand, NoMemory>
    requires { IfSome innermost (λ frame. IsFrameOf types.old ctxs.old frame.now) }
    ensures demand { IfOk result (λ d. demanded_at types.new ctxs.new d ≡ demanded_of types.old ctxs.old (option_map (λ frame. frame.now) innermost.entry)) }
    ensures number { IfOk result (IsDemandOf types.new ctxs.new) }
    ensures types { KeepsTypes types.old types.new }
    ensures contexts { KeepsContexts ctxs.old ctxs.new }
{
    match innermost {
        None => Ok(Demand {
            ctx: ctxs.empty(),
            mode: Mode::Syn,
        }),
        Some(Frame::Open(vertex)) => demand_at(alloc, types, ctxs, vertex),
        Some(Frame::Several(demand, _)) => Ok(*demand),
    }
}
