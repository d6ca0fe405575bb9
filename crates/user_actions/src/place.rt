ghost use Rattle.std.specs.Prelude.{◌≡◌, ◌<◌, [], ◌∷◌, Some, None, IfOk, OnOk, is_none, option_map, slice_get, filter, not, if◌then◌else◌};
ghost use Rattle.grove_sorts.specs.Ctor.{first_position, sort_of_ctor};
ghost use Rattle.grove_edits.specs.declared.edge.Edge.{Edge};
ghost use Rattle.graph_words.specs.Live.{children_of, parents_of};
ghost use Rattle.graph_words.specs.Few.{first_two};
ghost use Rattle.user_actions.specs.Faults.{first_some};
ghost use Rattle.user_actions.specs.Names.{is_same_name};
ghost use Rattle.user_actions.specs.Place.{sort_at_place};
ghost use Rattle.user_actions.specs.Checks.{other_sort, only_target, two_edges, none_named, below_itself};
ghost use Rattle.user_actions.specs.Told.{Tells};
ghost use Rattle.graph_words.specs.Cycle.{leads_to};

use crate::plan_view::PlanView;
use graph_words::{Few, Steps};
use grove_edits::{ActFault, Edge, Place, Vertex};
use grove_names::Name;
use grove_sorts::{Ctor, Position, Sort, first_position_of_sort, position_sort, sort_of};
use std::cmp::Ordering;
use std::marker::Brand;
use std::sync::ledger::{Blank, Ledger};

/// The sort of the children at a place, or that its vertex has no such position.
pub(crate) fn wanted_sort(vertex: &Vertex, place: Place) -> Result<Sort, ActFault>
    ensures sort { IfOk result (λ sort. sort_at_place vertex.now place ≡ Some sort) }
    ensures fault { Tells (if is_none (sort_at_place vertex.now place) then Some (ActFault.NoPosition vertex.now) else None) result }
{
    position_sort(&vertex.ctor, place.position).ok_or(ActFault::NoPosition { vertex: *vertex })
}

/// Whether what is put at a place has the sort that is wanted there.
pub(crate) fn check_sort(wanted: Sort, found: Sort) -> Result<(), ActFault>
    ensures same { OnOk result (wanted ≡ found) }
    ensures fault { Tells (other_sort (Some wanted) (Some found)) result }
{
    if wanted == found {
        Ok(())
    } else {
        Err(ActFault::WrongSort { wanted, found })
    }
}

/// Whether the target of the one edge, where there is one, has the sort that is wanted at its new place.
pub(crate) fn check_target_sort(wanted: Sort, edges: &[Edge]) -> Result<(), ActFault>
    ensures fault { Tells (other_sort (Some wanted) (option_map (λ v. sort_of_ctor v.ctor) (only_target edges.now))) result }
    ensures same { OnOk result ((e : Edge) → edges.now ≡ e ∷ [] → wanted ≡ sort_of_ctor e.target.ctor) }
{
    match edges {
        [only] => check_sort(wanted, sort_of(&only.target.ctor)),
        _ => Ok(()),
    }
}

/// Whether nothing stands at a place of a vertex.
pub(crate) fn check_free<V: PlanView>(
    view: &V,
    vertex: &Vertex,
    place: Place,
) -> Result<(), ActFault>
    ensures { Tells (option_map ActFault.Occupied (slice_get (children_of vertex.now place.position (V.children view.now)) 0)) result }
{
    match view.child(vertex, place.position, 0) {
        None => Ok(()),
        Some(edge) => Err(ActFault::Occupied { edge }),
    }
}

/// Whether something stands at a place of a vertex.
pub(crate) fn check_filled<V: PlanView>(
    view: &V,
    vertex: &Vertex,
    place: Place,
) -> Result<(), ActFault>
    ensures { Tells (if is_none (slice_get (children_of vertex.now place.position (V.children view.now)) 0) then Some (ActFault.Empty place) else None) result }
{
    match view.child(vertex, place.position, 0) {
        None => Err(ActFault::Empty { place }),
        Some(_) => Ok(()),
    }
}

/// The one edge at a place of a vertex.
pub(crate) fn sole_edge<V: PlanView>(
    view: &V,
    vertex: &Vertex,
    place: Place,
) -> Result<Edge, ActFault>
    ensures sole { IfOk result (λ edge. children_of vertex.now place.position (V.children view.now) ≡ edge ∷ []) }
    ensures fault { Tells (first_some ((if is_none (slice_get (children_of vertex.now place.position (V.children view.now)) 0) then Some (ActFault.Empty place) else None)
        ∷ two_edges (children_of vertex.now place.position (V.children view.now)) ∷ [])) result }
{
    let Some(first) = view.child(vertex, place.position, 0) else {
        return Err(ActFault::Empty { place });
    };
    match view.child(vertex, place.position, 1) {
        None => Ok(first),
        Some(second) => Err(ActFault::AmbiguousEdge { first, second }),
    }
}

/// Whether some edge has a name, of those that have it.
pub(crate) fn check_named(edges: &[Edge], name: Name) -> Result<(), ActFault>
    ensures { Tells (none_named name edges.now) result }
{
    match edges {
        [] => Err(ActFault::NoEdge { name }),
        _ => Ok(()),
    }
}

/// The one edge with a name, of those that have it.
pub(crate) fn sole_named(edges: &[Edge], name: Name) -> Result<Edge, ActFault>
    ensures sole { IfOk result (λ edge. edges.now ≡ edge ∷ []) }
    ensures fault { Tells (first_some (none_named name edges.now ∷ two_edges edges.now ∷ [])) result }
{
    match edges {
        [] => Err(ActFault::NoEdge { name }),
        [edge] => Ok(*edge),
        [first, second, ..] => Err(ActFault::AmbiguousEdge {
            first: *first,
            second: *second,
        }),
    }
}

/// Whether nothing but edges with a name stands at a place of a vertex.
pub(crate) fn check_free_but<V: PlanView>(
    view: &V,
    vertex: &Vertex,
    place: Place,
    name: Name,
) -> Result<(), ActFault>
    ensures { Tells (option_map ActFault.Occupied (slice_get (filter (λ e. not (is_same_name e.name name)) (children_of vertex.now place.position (V.children view.now))) 0)) result }
{
    for index in 0..view.child_count(vertex, place.position) {
        let Some(edge) = view.child(vertex, place.position, index) else {
            return Ok(());
        };
        if !is_same_name(edge.name, name) {
            return Err(ActFault::Occupied { edge });
        }
    }
    Ok(())
}

fn is_same_name(a: Name, b: Name) -> bool
    ensures { result ≡ is_same_name a b }
{
    a.cmp(&b) == Ordering::Equal
}

/// The position of a constructor at which it takes what has a sort.
pub(crate) fn wrapping_position(ctor: &Ctor, sort: Sort) -> Result<Position, ActFault>
    ensures position { IfOk result (λ position. first_position ctor.now sort ≡ Some position) }
    ensures fault { Tells (if is_none (first_position ctor.now sort) then Some (ActFault.CannotWrap ctor.now) else None) result }
{
    first_position_of_sort(ctor, sort).ok_or(ActFault::CannotWrap { ctor: *ctor })
}

/// Whether a vertex does not stand on the walk up from the vertex of its new place.
pub(crate) fn check_apart<V: PlanView>(
    view: &V,
    vertex: &Vertex,
    moved: &Vertex,
) -> Result<(), ActFault>
    ensures { Tells (below_itself (V.live view.now) vertex.now (Some moved.now)) result }
{
    if view.leads_to(vertex, moved) {
        Err(ActFault::IntoItself { vertex: *moved })
    } else {
        Ok(())
    }
}

/// Whether a vertex has no live parent edge.
pub(crate) fn check_loose<V: PlanView>(view: &V, moved: &Vertex) -> Result<(), ActFault>
    ensures { Tells (option_map ActFault.NotLoose (slice_get (parents_of moved.now (V.live view.now)) 0)) result }
{
    match few_counting::<V, Brand>(view, moved, Blank::new(1)) {
        Few::Zero => Ok(()),
        Few::One(edge) | Few::More(edge, _) => Err(ActFault::NotLoose { edge }),
    }
}

fn few_counting<V: PlanView, L: Ledger>(view: &V, vertex: &Vertex, blank: Blank) -> Few
    requires name { blank.name ≡ L.name }
    requires parts { blank.parts ≡ L.parts }
    requires some { 0 < blank.parts }
    ensures { result ≡ first_two (parents_of vertex.now (V.live view.now)) }
{
    let mut steps = Steps::<L>::new(blank);
    view.few(vertex, &mut steps)
}
