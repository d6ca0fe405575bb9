ghost use Rattle.std.specs.Prelude.{◌≡◌, [], List, length, IfOk, OnOk, if◌then◌else◌};
ghost use Rattle.grove_sorts.specs.Ctor.{positions, sort_of_ctor};
ghost use Rattle.type_core.specs.Typ.{Typ};
ghost use Rattle.type_core.specs.TypeTable.{KeepsTypes};
ghost use Rattle.mark_step.specs.Rows.{is_exp};
ghost use Rattle.mark_step.specs.Scope.{scope_at};
ghost use Rattle.mark_step.specs.Node.{IsScopeOf};
ghost use Rattle.judging.specs.Machine as machine;
ghost use Rattle.judging.specs.Frames.{given_at, opened_at, IsOpenOf, IsGivenOf};
ghost use Rattle.mark_incremental.specs.Walking.{IsSettled};

use crate::frame::Frame;
use ctx_table::{CtxId, CtxTable};
use grove_edits::Vertex;
use grove_sorts::{Ctor, Sort, sort_of};
use judging::{Given, close};
use mark_store::Record;
use std::alloc::Global;
use text_parts::NoMemory;
use type_core::TypeTable;

// The context that is kept of a vertex: that in which an expression is judged, and else the empty one.
fn kept_context(ctxs: &CtxTable, ctor: &Ctor, ctx: CtxId) -> CtxId
    ensures scope { (types : List Typ) → scope_at types ctxs.now result ≡ (if is_exp (sort_of_ctor ctor.now) then scope_at types ctxs.now ctx else []) }
    ensures number { (types : List Typ) → IsScopeOf types ctxs.now ctx → IsScopeOf types ctxs.now result }
{
    match sort_of(ctor) {
        Sort::Exp => ctx,
        Sort::Typ | Sort::Pat | Sort::Top => ctxs.empty(),
    }
}

/// Lists the record of a vertex whose positions are all judged, and tells what the vertex gives. The numbers of the table keep their
/// meaning, also where memory runs out.
pub(crate) fn settle<'t>(
    alloc: Global,
    types: &mut TypeTable,
    ctxs: &CtxTable,
    frame: &Frame<'t>,
    made: &mut Vec<(Vertex, Record)>,
) -> Result<Given<'t>, NoMemory>
    requires state { IsOpenOf types.old ctxs.now frame.now.state }
    requires whole { frame.now.state.next ≡ length (positions frame.now.state.ctor.now) }
    ensures settled { OnOk result (IsSettled types.new ctxs.now frame.now.vertex.now (opened_at types.old ctxs.now frame.now.state) made.old.items made.new.items) }
    ensures given { IfOk result (λ g. given_at types.new g ≡ machine.given_of (opened_at types.old ctxs.now frame.now.state)) }
    ensures number { IfOk result (IsGivenOf types.new) }
    ensures kept { KeepsTypes types.old types.new }
{
    let closed = close(alloc, types, ctxs, &frame.state)?;
    let kept = Record {
        ctx: kept_context(ctxs, frame.state.ctor, frame.state.demand.ctx),
        mode: closed.mode,
        typ: closed.typ,
        mark: closed.mark,
    };
    made.push((*frame.vertex, kept))?;
    Ok(closed.given)
}
