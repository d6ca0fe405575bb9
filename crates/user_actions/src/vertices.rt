ghost use Rattle.std.specs.Prelude.{◌≡◌, IfOk, IfErr};
ghost use Rattle.user_actions.specs.NamedVertices.{IsOneNamed, IsVertexFault, IsFirstVertexFault};

use crate::plan_view::PlanView;
use graph_words::Named;
use grove_edits::{ActFault, Vertex};
use grove_names::Name;

/// The one vertex of the graph with a name.
pub(crate) fn vertex_named<V: PlanView>(view: &V, name: Name) -> Result<Vertex, ActFault>
    ensures one { IfOk result (λ vertex. IsOneNamed (V.states view.now) name vertex) }
    ensures fault { IfErr result (λ fault. IsVertexFault (V.states view.now) name fault) }
{
    match view.vertices_named(name) {
        Named::Zero => Err(ActFault::NoVertex { name }),
        Named::One(vertex) => Ok(vertex),
        Named::More(first, second) => Err(ActFault::AmbiguousVertex { first, second }),
    }
}

/// The vertices of the graph with two names. That none has a name is told before that several have one.
pub(crate) fn vertices_named<V: PlanView>(
    view: &V,
    first: Name,
    second: Name,
) -> Result<(Vertex, Vertex), ActFault>
    ensures first { IfOk result (λ found. IsOneNamed (V.states view.now) first found.0) }
    ensures second { IfOk result (λ found. IsOneNamed (V.states view.now) second found.1) }
    ensures fault { IfErr result (λ fault. IsFirstVertexFault (V.states view.now) first second fault) }
{
    match view.vertices_named(first) {
        Named::Zero => Err(ActFault::NoVertex { name: first }),
        Named::One(at) => match view.vertices_named(second) {
            Named::Zero => Err(ActFault::NoVertex { name: second }),
            Named::One(moved) => Ok((at, moved)),
            Named::More(first, second) => Err(ActFault::AmbiguousVertex { first, second }),
        },
        Named::More(least, next) => match view.vertices_named(second) {
            Named::Zero => Err(ActFault::NoVertex { name: second }),
            Named::One(_) => Err(ActFault::AmbiguousVertex {
                first: least,
                second: next,
            }),
            Named::More(_, _) => Err(ActFault::AmbiguousVertex {
                first: least,
                second: next,
            }),
        },
    }
}
