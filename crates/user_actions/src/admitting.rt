ghost use Rattle.std.specs.Prelude.{IfOk};
ghost use Rattle.user_actions.specs.Admitted.{CanBeMade, TellsAdmitted};
ghost use Rattle.user_actions.specs.Planned.{CanPlan};

use crate::admitted::Admitted;
use crate::carried::carried;
use crate::edges::{edges_cut, live_named};
use crate::new_names::new_names;
use crate::place::{
    check_apart, check_filled, check_free, check_free_but, check_loose, check_named, check_sort,
    check_target_sort, sole_edge, sole_named, wrapping_position,
};
use crate::plan_view::PlanView;
use crate::planned::PlanFault;
use crate::spot::{spot_and_vertex, spot_at, spot_of_sort};
use grove_edits::{Action, Place};
use grove_names::Name;
use grove_sorts::{Ctor, sort_of};
use std::alloc::Global;

/// Checks an author's action, in the order of the faults, and gives what the checks found.
#[tactic(auto, using(crate::proofs::Finding::told_along))]
pub(crate) fn admit<V: PlanView>(
    alloc: Global,
    view: &V,
    author: u32,
    action: &Action,
) -> Result<Admitted, PlanFault>
    requires { CanPlan (V.states view.now) (V.opening view.now) (V.children view.now) (V.live view.now) author }
    ensures made { IfOk result CanBeMade }
    ensures told { TellsAdmitted (V.states view.now) (V.opening view.now) author action.now result }
{
    match *action {
        Action::Construct { place, ctor } => admit_construct(view, author, place, ctor),
        Action::Wrap { place, ctor } => admit_wrap(alloc, view, author, place, ctor),
        Action::Become { place, ctor } => admit_become(alloc, view, author, place, ctor),
        Action::Delete { place } => admit_delete(alloc, view, author, place),
        Action::Cut { edge } => admit_cut(alloc, view, author, edge),
        Action::Relocate { edge, place } => admit_relocate(alloc, view, author, edge, place),
        Action::Restore { vertex, place } => admit_restore(view, author, vertex, place),
    }
}

fn admit_construct<V: PlanView>(
    view: &V,
    author: u32,
    place: Place,
    ctor: Ctor,
) -> Result<Admitted, PlanFault>
    requires { CanPlan (V.states view.now) (V.opening view.now) (V.children view.now) (V.live view.now) author }
    ensures made { IfOk result CanBeMade }
    ensures told { TellsAdmitted (V.states view.now) (V.opening view.now) author (Action.Construct place ctor) result }
{
    let spot = spot_of_sort(view, place, sort_of(&ctor))?;
    check_free(view, &spot.vertex, place)?;
    let names = new_names(view, author, 2)?;
    Ok(Admitted::Construct { spot, ctor, names })
}

fn admit_wrap<V: PlanView>(
    alloc: Global,
    view: &V,
    author: u32,
    place: Place,
    ctor: Ctor,
) -> Result<Admitted, PlanFault>
    requires { CanPlan (V.states view.now) (V.opening view.now) (V.children view.now) (V.live view.now) author }
    ensures made { IfOk result CanBeMade }
    ensures told { TellsAdmitted (V.states view.now) (V.opening view.now) author (Action.Wrap place ctor) result }
{
    let spot = spot_of_sort(view, place, sort_of(&ctor))?;
    check_filled(view, &spot.vertex, place)?;
    let below = wrapping_position(&ctor, spot.sort)?;
    let wrapped = view.children_at(alloc, &spot.vertex, place.position)?;
    let names = new_names(view, author, 2 + wrapped.len() as u64)?;
    Ok(Admitted::Wrap {
        spot,
        ctor,
        below,
        wrapped,
        names,
    })
}

fn admit_become<V: PlanView>(
    alloc: Global,
    view: &V,
    author: u32,
    place: Place,
    ctor: Ctor,
) -> Result<Admitted, PlanFault>
    requires { CanPlan (V.states view.now) (V.opening view.now) (V.children view.now) (V.live view.now) author }
    ensures made { IfOk result CanBeMade }
    ensures told { TellsAdmitted (V.states view.now) (V.opening view.now) author (Action.Become place ctor) result }
{
    let spot = spot_of_sort(view, place, sort_of(&ctor))?;
    let replaced = sole_edge(view, &spot.vertex, place)?;
    let moved = carried(alloc, view, &ctor, &replaced)?;
    let names = new_names(view, author, 2 + moved.len() as u64)?;
    Ok(Admitted::Become {
        spot,
        ctor,
        replaced,
        moved,
        names,
    })
}

fn admit_delete<V: PlanView>(
    alloc: Global,
    view: &V,
    author: u32,
    place: Place,
) -> Result<Admitted, PlanFault>
    requires { CanPlan (V.states view.now) (V.opening view.now) (V.children view.now) (V.live view.now) author }
    ensures made { IfOk result CanBeMade }
    ensures told { TellsAdmitted (V.states view.now) (V.opening view.now) author (Action.Delete place) result }
{
    let spot = spot_at(view, place)?;
    check_filled(view, &spot.vertex, place)?;
    let edges = view.children_at(alloc, &spot.vertex, place.position)?;
    Ok(Admitted::Delete { edges })
}

fn admit_cut<V: PlanView>(
    alloc: Global,
    view: &V,
    author: u32,
    edge: Name,
) -> Result<Admitted, PlanFault>
    requires { CanPlan (V.states view.now) (V.opening view.now) (V.children view.now) (V.live view.now) author }
    ensures made { IfOk result CanBeMade }
    ensures told { TellsAdmitted (V.states view.now) (V.opening view.now) author (Action.Cut edge) result }
{
    let edges = edges_cut(alloc, view, edge)?;
    check_named(&edges, edge)?;
    Ok(Admitted::Delete { edges })
}

fn admit_relocate<V: PlanView>(
    alloc: Global,
    view: &V,
    author: u32,
    edge: Name,
    place: Place,
) -> Result<Admitted, PlanFault>
    requires { CanPlan (V.states view.now) (V.opening view.now) (V.children view.now) (V.live view.now) author }
    ensures made { IfOk result CanBeMade }
    ensures told { TellsAdmitted (V.states view.now) (V.opening view.now) author (Action.Relocate edge place) result }
{
    let spot = spot_at(view, place)?;
    let moved = live_named(alloc, view, edge)?;
    check_target_sort(spot.sort, &moved)?;
    check_free_but(view, &spot.vertex, place, edge)?;
    let old = sole_named(&moved, edge)?;
    check_apart(view, &spot.vertex, &old.target)?;
    let names = new_names(view, author, 1)?;
    Ok(Admitted::Relocate { spot, old, names })
}

fn admit_restore<V: PlanView>(
    view: &V,
    author: u32,
    vertex: Name,
    place: Place,
) -> Result<Admitted, PlanFault>
    requires { CanPlan (V.states view.now) (V.opening view.now) (V.children view.now) (V.live view.now) author }
    ensures made { IfOk result CanBeMade }
    ensures told { TellsAdmitted (V.states view.now) (V.opening view.now) author (Action.Restore vertex place) result }
{
    let (spot, moved) = spot_and_vertex(view, place, vertex)?;
    check_sort(spot.sort, sort_of(&moved.ctor))?;
    check_free(view, &spot.vertex, place)?;
    check_apart(view, &spot.vertex, &moved)?;
    check_loose(view, &moved)?;
    let names = new_names(view, author, 1)?;
    Ok(Admitted::Restore { spot, moved, names })
}
