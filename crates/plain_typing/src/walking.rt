ghost use Rattle.std.specs.Prelude.{◌≡◌, ◌∷◌, ◌-◌, ℕ, List, [], length, slice_get, Some, None, IfOk, OnOk, IfSome};
ghost use Rattle.std.specs.Option.{option_map};
ghost use Rattle.type_core.specs.TypeTable.{KeepsTypes};
ghost use Rattle.ctx_table.specs.CtxTable.{KeepsContexts};
ghost use Rattle.grove_sorts.specs.declared.ctor.Ctor.TheVariants.{Num};
ghost use Rattle.grove_sorts.specs.Ctor.{positions};
ghost use Rattle.edit_table.specs.Lent.{lent_ctor};
ghost use Rattle.grove_terms.specs.Lent.{node_of};
ghost use Rattle.mark_step.specs.Node.{demanded_at, IsDemandOf};
ghost use Rattle.marking.specs.Marking.{MarkedNode};
ghost use Rattle.judging.specs.Machine as machine;
ghost use Rattle.judging.specs.Machine.{State, deliver, opened, taken, step};
ghost use Rattle.judging.specs.Frames.{given_at, opened_at, left_of, frame_at, frames_at, frames_in, IsGivenOf, IsOpenOf, IsFrameOf, AreFramesOf};
ghost use Rattle.plain_typing.specs.Walking.{IsUnmarkedAt, AreUnsettled, IsNoted, StandsFor};

use ctx_table::CtxTable;
use edit_table::LentCtor;
use grove_sorts::{Ctor, position_count};
use grove_terms::{LentNode, LentWhat};
use judging::{Frame, Given, OpenVertex, close, close_literal, demand_next, fill, fresh, nothing};
use mark_step::{Demand, Mode};
use std::alloc::Global;
use text_parts::NoMemory;
use type_core::TypeTable;

/// A tree of which some nodes are judged: what is open, innermost last, and whether a vertex that is closed has a mark.
#[derive(Debug, Drop)]
pub(crate) struct Walk<'t> {
    pub(crate) frames: Vec<Frame<'t>>,
    pub(crate) has_mark: bool,
}

// Opens the vertex where some of its positions are left, and else closes it and tells what it gives.
fn go_on<'t>(
    alloc: Global,
    types: &mut TypeTable,
    ctxs: &CtxTable,
    walk: &mut Walk<'t>,
    vertex: &OpenVertex<'t>,
) -> Result<Option<Given<'t>>, NoMemory>
    requires frames { AreFramesOf types.old ctxs.now walk.old.frames.items }
    requires vertex { IsOpenOf types.old ctxs.now vertex.now }
    ensures state { IfOk result (λ given. (place : ℕ) (frames : List (ℕ × Frame)) (nodes : List MarkedNode)
        → frames_in frames ≡ walk.old.frames.items → IsUnmarkedAt nodes place
        → AreUnsettled place (frames_at types.old ctxs.now frames) nodes → IsNoted walk.old nodes
        → StandsFor types.new ctxs.now given walk.new
        (opened place (opened_at types.old ctxs.now vertex.now) (left_of vertex.now) (frames_at types.old ctxs.now frames) nodes)) }
    ensures given { IfOk result (λ given. IfSome given (IsGivenOf types.new)) }
    ensures shorter { IfOk result (λ given. IfSome given (λ g. length walk.new.frames.items ≡ length walk.old.frames.items)) }
    ensures frames { OnOk result (AreFramesOf types.new ctxs.now walk.new.frames.items) }
    ensures kept { KeepsTypes types.old types.new }
{
    if vertex.next < position_count(vertex.ctor) {
        walk.frames.push(Frame::Open(*vertex))?;
        return Ok(None);
    }
    let closed = close(alloc, types, ctxs, vertex)?;
    walk.has_mark |= closed.mark.is_some();
    Ok(Some(closed.given))
}

// Gives something to a frame that was the innermost, and tells what that gives to the next one.
fn pass<'t>(
    alloc: Global,
    types: &mut TypeTable,
    ctxs: &CtxTable,
    walk: &mut Walk<'t>,
    frame: &mut Frame<'t>,
    given: Given<'t>,
) -> Result<Option<Given<'t>>, NoMemory>
    requires frames { AreFramesOf types.old ctxs.now walk.old.frames.items }
    requires frame { IsFrameOf types.old ctxs.now frame.old }
    requires given { IsGivenOf types.old given }
    ensures state { IfOk result (λ g. (place : ℕ) (frames : List (ℕ × Frame)) (nodes : List MarkedNode)
        → frames_in frames ≡ walk.old.frames.items
        → AreUnsettled (length nodes) (frame_at types.old ctxs.now place frame.old ∷ frames_at types.old ctxs.now frames) nodes → IsNoted walk.old nodes
        → StandsFor types.new ctxs.now g walk.new (deliver (given_at types.old given.entry)
        (frame_at types.old ctxs.now place frame.old ∷ frames_at types.old ctxs.now frames) nodes)) }
    ensures given { IfOk result (λ given. IfSome given (IsGivenOf types.new)) }
    ensures shorter { IfOk result (λ given. IfSome given (λ g. length walk.new.frames.items ≡ length walk.old.frames.items)) }
    ensures frames { OnOk result (AreFramesOf types.new ctxs.now walk.new.frames.items) }
    ensures kept { KeepsTypes types.old types.new }
{
    match frame {
        Frame::Open(vertex) => {
            fill(vertex, given);
            go_on(alloc, types, ctxs, walk, vertex)
        }
        Frame::Several(demand, left) => {
            if *left > 1 {
                walk.frames.push(Frame::Several(*demand, *left - 1))?;
                return Ok(None);
            }
            Ok(Some(nothing(types)))
        }
    }
}

// Gives something to the innermost frame, and where that is whole, what it gives to the next one, and so on.
fn hand_on<'t>(
    alloc: Global,
    types: &mut TypeTable,
    ctxs: &CtxTable,
    walk: &mut Walk<'t>,
    given: Option<Given<'t>>,
) -> Result<(), NoMemory>
    requires frames { AreFramesOf types.old ctxs.now walk.old.frames.items }
    requires given { IfSome given (IsGivenOf types.old) }
    ensures state { OnOk result ((s : State) → StandsFor types.old ctxs.now given.entry walk.old s → StandsFor types.new ctxs.now None walk.new s) }
    ensures frames { OnOk result (AreFramesOf types.new ctxs.now walk.new.frames.items) }
    ensures kept { KeepsTypes types.old types.new }
{
    let mut pending = given;
    while let Some(given) = pending {
        let Some(mut frame) = walk.frames.pop() else {
            return Ok(());
        };
        pending = pass(alloc, types, ctxs, walk, &mut frame, given)?;
    }
    Ok(())
}

// Judges a literal, of which this is demanded, and tells what it gives.
fn judge_literal<'t>(
    alloc: Global,
    types: &mut TypeTable,
    ctxs: &CtxTable,
    walk: &mut Walk<'t>,
    number: u64,
    demand: Demand,
) -> Result<Given<'t>, NoMemory>
    requires frames { AreFramesOf types.old ctxs.now walk.old.frames.items }
    requires demand { IsDemandOf types.old ctxs.now demand }
    ensures state { IfOk result (λ given. (place : ℕ) (frames : List (ℕ × Frame)) (nodes : List MarkedNode)
        → frames_in frames ≡ walk.old.frames.items → IsUnmarkedAt nodes place
        → AreUnsettled place (frames_at types.old ctxs.now frames) nodes → IsNoted walk.old nodes
        → StandsFor types.new ctxs.now (Some given) walk.new
        (opened place (machine.fresh (Num number) (demanded_at types.old ctxs.now demand)) [] (frames_at types.old ctxs.now frames) nodes)) }
    ensures given { IfOk result (IsGivenOf types.new) }
    ensures frames { OnOk result (AreFramesOf types.new ctxs.now walk.new.frames.items) }
    ensures kept { KeepsTypes types.old types.new }
{
    let literal = close_literal(alloc, types, ctxs, number, demand)?;
    walk.has_mark |= literal.mark.is_some();
    Ok(literal.given)
}

// Judges a vertex, of which this is demanded, as far as it can be, and tells what it gives.
fn begin_vertex<'t>(
    alloc: Global,
    types: &mut TypeTable,
    ctxs: &CtxTable,
    walk: &mut Walk<'t>,
    ctor: &'t Ctor,
    demand: Demand,
) -> Result<Option<Given<'t>>, NoMemory>
    requires frames { AreFramesOf types.old ctxs.now walk.old.frames.items }
    requires demand { IsDemandOf types.old ctxs.now demand }
    ensures state { IfOk result (λ given. (place : ℕ) (frames : List (ℕ × Frame)) (nodes : List MarkedNode)
        → frames_in frames ≡ walk.old.frames.items → IsUnmarkedAt nodes place
        → AreUnsettled place (frames_at types.old ctxs.now frames) nodes → IsNoted walk.old nodes
        → StandsFor types.new ctxs.now given walk.new
        (opened place (machine.fresh ctor.now (demanded_at types.old ctxs.now demand)) (positions ctor.now) (frames_at types.old ctxs.now frames) nodes)) }
    ensures given { IfOk result (λ given. IfSome given (IsGivenOf types.new)) }
    ensures frames { OnOk result (AreFramesOf types.new ctxs.now walk.new.frames.items) }
    ensures kept { KeepsTypes types.old types.new }
{
    let begun = fresh(types, ctor, demand);
    go_on(alloc, types, ctxs, walk, &begun)
}

// Judges a vertex whose constructor is lent.
fn begin_lent<'t>(
    alloc: Global,
    types: &mut TypeTable,
    ctxs: &CtxTable,
    walk: &mut Walk<'t>,
    ctor: LentCtor<'t>,
    demand: Demand,
) -> Result<Option<Given<'t>>, NoMemory>
    requires frames { AreFramesOf types.old ctxs.now walk.old.frames.items }
    requires demand { IsDemandOf types.old ctxs.now demand }
    ensures state { IfOk result (λ given. (place : ℕ) (frames : List (ℕ × Frame)) (nodes : List MarkedNode)
        → frames_in frames ≡ walk.old.frames.items → IsUnmarkedAt nodes place
        → AreUnsettled place (frames_at types.old ctxs.now frames) nodes → IsNoted walk.old nodes
        → StandsFor types.new ctxs.now given walk.new
        (opened place (machine.fresh (lent_ctor ctor.entry) (demanded_at types.old ctxs.now demand)) (positions (lent_ctor ctor.entry)) (frames_at types.old ctxs.now frames) nodes)) }
    ensures given { IfOk result (λ given. IfSome given (IsGivenOf types.new)) }
    ensures frames { OnOk result (AreFramesOf types.new ctxs.now walk.new.frames.items) }
    ensures kept { KeepsTypes types.old types.new }
{
    match ctor {
        LentCtor::At(ctor) => begin_vertex(alloc, types, ctxs, walk, ctor, demand),
        LentCtor::Literal(number) => Ok(Some(judge_literal(
            alloc, types, ctxs, walk, number, demand,
        )?)),
    }
}

// Judges a node, of which this is demanded, as far as it can be, and tells what it gives.
fn begin<'t>(
    alloc: Global,
    types: &mut TypeTable,
    ctxs: &CtxTable,
    walk: &mut Walk<'t>,
    node: &LentNode<'t>,
    demand: Demand,
) -> Result<Option<Given<'t>>, NoMemory>
    requires frames { AreFramesOf types.old ctxs.now walk.old.frames.items }
    requires demand { IsDemandOf types.old ctxs.now demand }
    ensures state { IfOk result (λ given. (s : State) → StandsFor types.old ctxs.now None walk.old s
        → StandsFor types.new ctxs.now given walk.new (taken (node_of node.now).what (node_of node.now) (demanded_at types.old ctxs.now demand) s.frames s.out)) }
    ensures given { IfOk result (λ given. IfSome given (IsGivenOf types.new)) }
    ensures frames { OnOk result (AreFramesOf types.new ctxs.now walk.new.frames.items) }
    ensures kept { KeepsTypes types.old types.new }
{
    match node.what() {
        LentWhat::Vertex(vertex) => begin_lent(alloc, types, ctxs, walk, vertex.ctor, demand),
        LentWhat::Conflict(_, count) => {
            let each = Demand {
                ctx: demand.ctx,
                mode: Mode::Syn,
            };
            walk.frames.push(Frame::Several(each, count))?;
            Ok(None)
        }
        LentWhat::Hole(_) | LentWhat::MultiRef(_) | LentWhat::CycleRef(_) => {
            Ok(Some(nothing(types)))
        }
    }
}

fn innermost<'f, 't>(frames: &'f [Frame<'t>]) -> Option<&'f Frame<'t>>
    ensures { option_map (λ frame. frame.now) result ≡ slice_get frames.now (length frames.now - 1) }
{
    frames.last()
}

// Takes the next node.
pub(crate) fn take<'t>(
    alloc: Global,
    types: &mut TypeTable,
    ctxs: &mut CtxTable,
    walk: &mut Walk<'t>,
    node: &LentNode<'t>,
) -> Result<(), NoMemory>
    requires frames { AreFramesOf types.old ctxs.old walk.old.frames.items }
    ensures state { OnOk result ((s : State) → StandsFor types.old ctxs.old None walk.old s
        → StandsFor types.new ctxs.new None walk.new (step s (node_of node.now))) }
    ensures frames { OnOk result (AreFramesOf types.new ctxs.new walk.new.frames.items) }
    ensures types { KeepsTypes types.old types.new }
    ensures contexts { KeepsContexts ctxs.old ctxs.new }
{
    let demand = demand_next(alloc, types, ctxs, innermost(&walk.frames))?;
    let given = begin(alloc, types, ctxs, walk, node, demand)?;
    hand_on(alloc, types, ctxs, walk, given)
}
