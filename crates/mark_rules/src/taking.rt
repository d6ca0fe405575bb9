ghost use Rattle.std.specs.Prelude.{◌≡◌, ◌+◌, ◌-◌, ◌<◌, List, ◌∷◌, ◌++◌, [], length, set, slice_get, Some, IfOk, OnOk, IfSome};
ghost use Rattle.std.specs.Option.{option_map};
ghost use Rattle.grove_terms.specs.declared.node.LentNode.{LentNode};
ghost use Rattle.grove_sorts.specs.declared.ctor.Ctor.TheVariants.{Num};
ghost use Rattle.grove_sorts.specs.Ctor.{positions};
ghost use Rattle.edit_table.specs.Lent.{lent_ctor};
ghost use Rattle.grove_terms.specs.Lent.{node_of};
ghost use Rattle.type_core.specs.Typ.{Typ};
ghost use Rattle.type_core.specs.TypeTable.{KeepsTypes};
ghost use Rattle.ctx_table.specs.CtxTable.{KeepsContexts};
ghost use Rattle.mark_step.specs.Node.{wanted_at, demanded_at, IsModeOf, IsDemandOf};
ghost use Rattle.marking.specs.Marking.{marked_plain};
ghost use Rattle.marking.specs.Added.{with_added, marked_nodes};
ghost use Rattle.marking.specs.Reading.{meant, meant_nodes};
ghost use Rattle.marking.specs.Numbers.{IsAddedOf, AreAddedOf};
ghost use Rattle.judging.specs.Machine as machine;
ghost use Rattle.judging.specs.Machine.{opened, taken, step};
ghost use Rattle.judging.specs.Frames.{given_at, frames_at, filled_with, IsGivenOf};
ghost use Rattle.mark_rules.specs.Walking.{state_at, given_on, added_by, IsWalkOf};

use ctx_table::CtxTable;
use edit_table::LentCtor;
use grove_sorts::{Ctor, Sort, position_count};
use grove_terms::{LentNode, LentWhat};
use judging::{
    Closed, Frame, Given, OpenVertex, close, close_literal, demand_next, fresh, nothing,
};
use mark_step::{Demand, Mark, Mode};
use marking::Added;
use std::alloc::Global;
use text_parts::NoMemory;
use type_core::TypeTable;

/// A tree of which some nodes are marked.
#[derive(Debug, Drop)]
pub(crate) struct Walk<'t> {
    /// What is open, innermost last, each with the index of its node.
    pub(crate) frames: Vec<(usize, Frame<'t>)>,
    /// What is added to each of the nodes so far. The nodes themselves stand in the tree.
    pub(crate) added: Vec<Added>,
}

// What is added to the node of an open vertex, which is not marked yet.
fn unsettled() -> Added
    ensures node { (types : List Typ) (node : LentNode) → meant types (with_added node result) ≡ machine.unsettled (node_of node) }
    ensures numbers { (types : List Typ) → IsAddedOf types result }
{
    Added {
        mode: None,
        typ: None,
        mark: Mark::None,
    }
}

// What is added to the node of a position without a sole child, or of a reference.
fn plain(types: &TypeTable, sort: Sort, mode: Mode) -> Added
    requires { IsModeOf types.now mode }
    ensures node { (node : LentNode) → meant types.now (with_added node result) ≡ marked_plain sort (wanted_at types.now mode) (node_of node) }
    ensures numbers { IsAddedOf types.now result }
{
    let unknown = types.unknown();
    let (mode, typ) = match sort {
        Sort::Exp => (Some(mode), Some(unknown)),
        Sort::Typ => (None, Some(unknown)),
        Sort::Pat | Sort::Top => (None, None),
    };
    Added {
        mode,
        typ,
        mark: Mark::None,
    }
}

// Lists what is added to the next node. A `push` makes room for handing it back where memory runs out, on each call.
fn list(added: &mut Vec<Added>, next: Added) -> Result<(), NoMemory>
    ensures { OnOk result (added.new.items ≡ added.old.items ++ next ∷ []) }
{
    added.reserve(1)?;
    added.push_reserved(next);
    Ok(())
}

// Lists what is added to such a node, and tells what it gives.
fn list_plain<'t>(
    types: &TypeTable,
    added: &mut Vec<Added>,
    sort: Sort,
    mode: Mode,
) -> Result<Given<'t>, NoMemory>
    requires mode { IsModeOf types.now mode }
    requires added { AreAddedOf types.now added.old.items }
    ensures listed { OnOk result ((nodes : List LentNode) (node : LentNode) → slice_get nodes (length added.old.items) ≡ Some node
        → meant_nodes types.now (marked_nodes nodes added.new.items)
        ≡ meant_nodes types.now (marked_nodes nodes added.old.items) ++ marked_plain sort (wanted_at types.now mode) (node_of node) ∷ []) }
    ensures count { OnOk result (length added.new.items ≡ length added.old.items + 1) }
    ensures numbers { OnOk result (AreAddedOf types.now added.new.items) }
    ensures given { IfOk result (λ given. given_at types.now given ≡ machine.nothing) }
    ensures given_number { IfOk result (IsGivenOf types.now) }
{
    list(added, plain(types, sort, mode))?;
    Ok(nothing(types))
}

// Puts what is added to the node at an index, if there is one.
fn settle(added: &mut Vec<Added>, index: usize, settled: Added)
    ensures { added.new.items ≡ set added.old.items index settled }
{
    if index < added.len() {
        added[index] = settled;
    }
}

// What marking adds to the node of a vertex that is closed.
fn added_by(closed: &Closed) -> Added
    ensures { result ≡ added_by closed.now }
{
    Added {
        mode: closed.mode,
        typ: closed.typ,
        mark: closed.mark,
    }
}

// Opens a vertex, whose node has this index, where it has positions, and else closes it at once and tells what it gives.
fn open<'t>(
    alloc: Global,
    types: &mut TypeTable,
    ctxs: &CtxTable,
    walk: &mut Walk<'t>,
    place: usize,
    ctor: &'t Ctor,
    demand: Demand,
) -> Result<Option<Given<'t>>, NoMemory>
    requires walk { IsWalkOf types.old ctxs.now walk.old }
    requires demand { IsDemandOf types.old ctxs.now demand }
    ensures state { IfOk result (λ given. (nodes : List LentNode)
        → given_on types.new ctxs.now nodes given walk.new ≡ opened place (machine.fresh ctor.now (demanded_at types.old ctxs.now demand)) (positions ctor.now)
        (frames_at types.old ctxs.now walk.old.frames.items) (meant_nodes types.old (marked_nodes nodes walk.old.added.items))) }
    ensures count { OnOk result (length walk.new.added.items ≡ length walk.old.added.items) }
    ensures given { IfOk result (λ given. IfSome given (IsGivenOf types.new)) }
    ensures walk { OnOk result (IsWalkOf types.new ctxs.now walk.new) }
    ensures kept { KeepsTypes types.old types.new }
{
    if position_count(ctor) > 0 {
        walk.frames.reserve(1)?;
        walk.frames
            .push_reserved((place, Frame::Open(fresh(types, ctor, demand))));
        return Ok(None);
    }
    let closed = close(alloc, types, ctxs, &fresh(types, ctor, demand))?;
    settle(&mut walk.added, place, added_by(&closed));
    Ok(Some(closed.given))
}

// Closes a literal, whose node has this index, and tells what it gives.
fn settle_literal<'t>(
    alloc: Global,
    types: &mut TypeTable,
    ctxs: &CtxTable,
    walk: &mut Walk<'t>,
    place: usize,
    number: u64,
    demand: Demand,
) -> Result<Given<'t>, NoMemory>
    requires walk { IsWalkOf types.old ctxs.now walk.old }
    requires demand { IsDemandOf types.old ctxs.now demand }
    ensures state { IfOk result (λ given. (nodes : List LentNode)
        → given_on types.new ctxs.now nodes (Some given) walk.new ≡ opened place (machine.fresh (Num number) (demanded_at types.old ctxs.now demand)) []
        (frames_at types.old ctxs.now walk.old.frames.items) (meant_nodes types.old (marked_nodes nodes walk.old.added.items))) }
    ensures count { OnOk result (length walk.new.added.items ≡ length walk.old.added.items) }
    ensures given { IfOk result (IsGivenOf types.new) }
    ensures walk { OnOk result (IsWalkOf types.new ctxs.now walk.new) }
    ensures kept { KeepsTypes types.old types.new }
{
    let closed = close_literal(alloc, types, ctxs, number, demand)?;
    settle(&mut walk.added, place, added_by(&closed));
    Ok(closed.given)
}

// Opens a vertex whose constructor is lent.
fn open_lent<'t>(
    alloc: Global,
    types: &mut TypeTable,
    ctxs: &CtxTable,
    walk: &mut Walk<'t>,
    place: usize,
    ctor: LentCtor<'t>,
    demand: Demand,
) -> Result<Option<Given<'t>>, NoMemory>
    requires walk { IsWalkOf types.old ctxs.now walk.old }
    requires demand { IsDemandOf types.old ctxs.now demand }
    ensures state { IfOk result (λ given. (nodes : List LentNode)
        → given_on types.new ctxs.now nodes given walk.new ≡ opened place (machine.fresh (lent_ctor ctor.entry) (demanded_at types.old ctxs.now demand))
        (positions (lent_ctor ctor.entry)) (frames_at types.old ctxs.now walk.old.frames.items) (meant_nodes types.old (marked_nodes nodes walk.old.added.items))) }
    ensures count { OnOk result (length walk.new.added.items ≡ length walk.old.added.items) }
    ensures given { IfOk result (λ given. IfSome given (IsGivenOf types.new)) }
    ensures walk { OnOk result (IsWalkOf types.new ctxs.now walk.new) }
    ensures kept { KeepsTypes types.old types.new }
{
    match ctor {
        LentCtor::At(ctor) => open(alloc, types, ctxs, walk, place, ctor, demand),
        LentCtor::Literal(number) => Ok(Some(settle_literal(
            alloc, types, ctxs, walk, place, number, demand,
        )?)),
    }
}

// Gives a vertex what the child at its next position has given, as `judging::fill` does, which writes the whole wide row: here only that
// position is written.
fn fill<'t>(vertex: &mut OpenVertex<'t>, given: Given<'t>)
    requires { vertex.old.next < length (positions vertex.old.ctor.now) }
    ensures { vertex.new ≡ filled_with given.entry vertex.old }
{
    match vertex.next {
        0 => vertex.given.first = given,
        1 => vertex.given.second = given,
        2 => vertex.given.third = given,
        3 => vertex.given.fourth = given,
        4 => vertex.given.fifth = given,
        _ => {}
    }
    vertex.next += 1;
}

// Gives something to the innermost frame where it stands. Where that was the last thing to be given, takes the frame off and tells what it
// gives to the next one.
fn pass<'t>(
    alloc: Global,
    types: &mut TypeTable,
    ctxs: &CtxTable,
    walk: &mut Walk<'t>,
    given: Given<'t>,
) -> Result<Option<Given<'t>>, NoMemory>
    requires walk { IsWalkOf types.old ctxs.now walk.old }
    requires given { IsGivenOf types.old given }
    ensures state { IfOk result (λ g. (nodes : List LentNode)
        → given_on types.new ctxs.now nodes g walk.new ≡ given_on types.old ctxs.now nodes (Some given.entry) walk.old) }
    ensures count { OnOk result (length walk.new.added.items ≡ length walk.old.added.items) }
    ensures given { IfOk result (λ given. IfSome given (IsGivenOf types.new)) }
    ensures shorter { IfOk result (λ given. IfSome given (λ g. length walk.new.frames.items < length walk.old.frames.items)) }
    ensures walk { OnOk result (IsWalkOf types.new ctxs.now walk.new) }
    ensures kept { KeepsTypes types.old types.new }
{
    let Some(last) = walk.frames.len().checked_sub(1) else {
        return Ok(None);
    };
    let (place, frame) = &mut walk.frames[last];
    match frame {
        Frame::Open(vertex) => {
            fill(vertex, given);
            if vertex.next < position_count(vertex.ctor) {
                return Ok(None);
            }
            let closed = close(alloc, types, ctxs, vertex)?;
            settle(&mut walk.added, *place, added_by(&closed));
            walk.frames.truncate(last);
            Ok(Some(closed.given))
        }
        Frame::Several(_, left) => {
            if *left > 1 {
                *left -= 1;
                return Ok(None);
            }
            walk.frames.truncate(last);
            Ok(Some(nothing(types)))
        }
    }
}

// Gives something to the innermost frame, and where that is whole, what it gives to the next one, and so on.
fn hand_on<'t>(
    alloc: Global,
    types: &mut TypeTable,
    ctxs: &CtxTable,
    walk: &mut Walk<'t>,
    given: Option<Given<'t>>,
) -> Result<(), NoMemory>
    requires walk { IsWalkOf types.old ctxs.now walk.old }
    requires given { IfSome given (IsGivenOf types.old) }
    ensures state { OnOk result ((nodes : List LentNode) → state_at types.new ctxs.now nodes walk.new ≡ given_on types.old ctxs.now nodes given.entry walk.old) }
    ensures count { OnOk result (length walk.new.added.items ≡ length walk.old.added.items) }
    ensures walk { OnOk result (IsWalkOf types.new ctxs.now walk.new) }
    ensures kept { KeepsTypes types.old types.new }
{
    let mut pending = given;
    while let Some(given) = pending {
        pending = pass(alloc, types, ctxs, walk, given)?;
    }
    Ok(())
}

// Marks the next node, of which this is demanded, as far as it can be, and tells what it gives.
fn begin<'t>(
    alloc: Global,
    types: &mut TypeTable,
    ctxs: &CtxTable,
    walk: &mut Walk<'t>,
    node: &LentNode<'t>,
    demand: Demand,
) -> Result<Option<Given<'t>>, NoMemory>
    requires walk { IsWalkOf types.old ctxs.now walk.old }
    requires demand { IsDemandOf types.old ctxs.now demand }
    ensures state { IfOk result (λ g. (nodes : List LentNode) → slice_get nodes (length walk.old.added.items) ≡ Some node.now
        → given_on types.new ctxs.now nodes g walk.new ≡ taken (node_of node.now).what (node_of node.now) (demanded_at types.old ctxs.now demand)
        (frames_at types.old ctxs.now walk.old.frames.items) (meant_nodes types.old (marked_nodes nodes walk.old.added.items))) }
    ensures count { OnOk result (length walk.new.added.items ≡ length walk.old.added.items + 1) }
    ensures given { IfOk result (λ given. IfSome given (IsGivenOf types.new)) }
    ensures walk { OnOk result (IsWalkOf types.new ctxs.now walk.new) }
    ensures kept { KeepsTypes types.old types.new }
{
    let mode = demand.mode;
    let place = walk.added.len();
    match node.what() {
        LentWhat::Vertex(vertex) => {
            list(&mut walk.added, unsettled())?;
            open_lent(alloc, types, ctxs, walk, place, vertex.ctor, demand)
        }
        LentWhat::Hole(sort) => Ok(Some(list_plain(types, &mut walk.added, sort, mode)?)),
        LentWhat::Conflict(sort, count) => {
            list_plain(types, &mut walk.added, sort, mode)?;
            let each = Demand {
                ctx: demand.ctx,
                mode: Mode::Syn,
            };
            walk.frames.reserve(1)?;
            walk.frames
                .push_reserved((place, Frame::Several(each, count)));
            Ok(None)
        }
        LentWhat::MultiRef(vertex) | LentWhat::CycleRef(vertex) => {
            let sort = vertex.ctor.sort();
            Ok(Some(list_plain(types, &mut walk.added, sort, mode)?))
        }
    }
}

fn innermost<'f, 't>(frames: &'f [(usize, Frame<'t>)]) -> Option<&'f Frame<'t>>
    ensures { option_map (λ frame. frame.now) result ≡ option_map (λ frame. frame.1) (slice_get frames.now (length frames.now - 1)) }
{
    let (_, frame) = frames.last()?;
    Some(frame)
}

// Takes the next node.
pub(crate) fn take<'t>(
    alloc: Global,
    types: &mut TypeTable,
    ctxs: &mut CtxTable,
    walk: &mut Walk<'t>,
    node: &LentNode<'t>,
) -> Result<(), NoMemory>
    requires walk { IsWalkOf types.old ctxs.old walk.old }
    ensures state { OnOk result ((nodes : List LentNode) → slice_get nodes (length walk.old.added.items) ≡ Some node.now
        → state_at types.new ctxs.new nodes walk.new ≡ step (state_at types.old ctxs.old nodes walk.old) (node_of node.now)) }
    ensures count { OnOk result (length walk.new.added.items ≡ length walk.old.added.items + 1) }
    ensures walk { OnOk result (IsWalkOf types.new ctxs.new walk.new) }
    ensures types { KeepsTypes types.old types.new }
    ensures contexts { KeepsContexts ctxs.old ctxs.new }
{
    let demand = demand_next(alloc, types, ctxs, innermost(&walk.frames))?;
    let given = begin(alloc, types, ctxs, walk, node, demand)?;
    hand_on(alloc, types, ctxs, walk, given)
}
