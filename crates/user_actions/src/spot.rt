ghost use Rattle.std.specs.Prelude.{◌≡◌, IfOk, IfErr};
ghost use Rattle.user_actions.specs.Spot.{IsSpot, IsFirstAt, IsFirstOfSort, IsFirstOfTwo};
ghost use Rattle.user_actions.specs.NamedVertices.{IsOneNamed};

use crate::place::{check_sort, wanted_sort};
use crate::plan_view::PlanView;
use crate::vertices::{vertex_named, vertices_named};
use grove_edits::{ActFault, Place, Vertex};
use grove_names::Name;
use grove_sorts::Sort;

/// The place of an action, with its vertex and the sort that is wanted there.
#[derive(Clone, Copy)]
pub(crate) struct Spot {
    pub(crate) place: Place,
    pub(crate) vertex: Vertex,
    pub(crate) sort: Sort,
}

/// Finds the vertex of a place, which has its position.
pub(crate) fn spot_at<V: PlanView>(view: &V, place: Place) -> Result<Spot, ActFault>
    ensures spot { IfOk result (IsSpot (V.states view.now) place) }
    ensures fault { IfErr result (IsFirstAt (V.states view.now) place) }
{
    let vertex = vertex_named(view, place.name)?;
    let sort = wanted_sort(&vertex, place)?;
    Ok(Spot {
        place,
        vertex,
        sort,
    })
}

/// Finds the vertex of a place, where what has a sort can stand.
pub(crate) fn spot_of_sort<V: PlanView>(
    view: &V,
    place: Place,
    sort: Sort,
) -> Result<Spot, ActFault>
    ensures spot { IfOk result (IsSpot (V.states view.now) place) }
    ensures sort { IfOk result (λ spot. spot.sort ≡ sort) }
    ensures fault { IfErr result (IsFirstOfSort (V.states view.now) place sort) }
{
    let spot = spot_at(view, place)?;
    check_sort(spot.sort, sort)?;
    Ok(spot)
}

/// Finds the vertex of a place and another vertex by its name.
pub(crate) fn spot_and_vertex<V: PlanView>(
    view: &V,
    place: Place,
    name: Name,
) -> Result<(Spot, Vertex), ActFault>
    ensures spot { IfOk result (λ found. IsSpot (V.states view.now) place found.0) }
    ensures vertex { IfOk result (λ found. IsOneNamed (V.states view.now) name found.1) }
    ensures fault { IfErr result (IsFirstOfTwo (V.states view.now) place name) }
{
    let (vertex, other) = vertices_named(view, place.name, name)?;
    let sort = wanted_sort(&vertex, place)?;
    let spot = Spot {
        place,
        vertex,
        sort,
    };
    Ok((spot, other))
}
