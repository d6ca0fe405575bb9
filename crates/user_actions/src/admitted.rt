ghost use Rattle.std.specs.Prelude.{◌≡◌, ◌+◌, [], ◌∷◌, Some, length, map, IfOk};
ghost use Rattle.std.specs.List.{All};
ghost use Rattle.grove_edits.specs.Edge.{IsWellFormed};
ghost use Rattle.grove_edits.specs.declared.answer.Answer.TheVariants.{Made, Moved, Done};
ghost use Rattle.user_actions.specs.Names.{new_name};
ghost use Rattle.user_actions.specs.PlainEdits.{plain, deletion, deletions, insertion, to_new_vertex, wrap_edits, carry_over as carried_over, relocate_edits};
ghost use Rattle.user_actions.specs.Standing.{CanStandAt};
ghost use Rattle.user_actions.specs.Admitted.{made_of, edits_made, answer_made, HasNames, CanStandIn, CanBeMade};

use crate::edits::{carry_over, delete, delete_each, put, put_below};
use crate::new_names::NewNames;
use crate::planned::Plan;
use crate::spot::Spot;
use grove_edits::{Answer, Edge, EditList, Vertex};
use grove_sorts::{Ctor, Position};
use std::alloc::Global;
use text_parts::NoMemory;

/// What the checks of an action found, which is all that its edits are made of.
#[derive(Drop)]
pub(crate) enum Admitted {
    /// A new vertex at the place.
    Construct {
        spot: Spot,
        ctor: Ctor,
        names: NewNames,
    },
    /// A new vertex at the place, and at a position below it what stood there.
    Wrap {
        spot: Spot,
        ctor: Ctor,
        below: Position,
        wrapped: Vec<Edge>,
        names: NewNames,
    },
    /// A new vertex in place of the target of an edge, and below it some of the edges from that target.
    Become {
        spot: Spot,
        ctor: Ctor,
        replaced: Edge,
        moved: Vec<Edge>,
        names: NewNames,
    },
    /// Some edges that are deleted.
    Delete {
        edges: Vec<Edge>,
    },
    /// The target of an edge, which is deleted, at the place.
    Relocate {
        spot: Spot,
        old: Edge,
        names: NewNames,
    },
    /// A vertex at the place.
    Restore {
        spot: Spot,
        moved: Vertex,
        names: NewNames,
    },
}

/// Makes the edits and the answer of what was found.
pub(crate) fn made(alloc: Global, found: &Admitted) -> Result<Plan, NoMemory>
    requires { CanBeMade found.now }
    ensures edits { IfOk result (λ plan. map plain plan.edits ≡ edits_made found.now) }
    ensures answer { IfOk result (λ plan. plan.answer ≡ answer_made found.now) }
{
    match found {
        Admitted::Construct { spot, ctor, names } => construct(alloc, spot, *ctor, names),
        Admitted::Wrap {
            spot,
            ctor,
            below,
            wrapped,
            names,
        } => wrap(alloc, spot, *ctor, *below, wrapped, names),
        Admitted::Become {
            spot,
            ctor,
            replaced,
            moved,
            names,
        } => become_other(alloc, spot, *ctor, *replaced, moved, names),
        Admitted::Delete { edges } => delete_all(alloc, edges),
        Admitted::Relocate { spot, old, names } => relocate(alloc, spot, *old, names),
        Admitted::Restore { spot, moved, names } => restore(alloc, spot, moved, names),
    }
}

fn construct(alloc: Global, spot: &Spot, ctor: Ctor, names: &NewNames) -> Result<Plan, NoMemory>
    requires names { HasNames names.now 2 }
    requires standing { CanStandIn spot.now (made_of names.now ctor) }
    ensures edits { IfOk result (λ plan. map plain plan.edits ≡ to_new_vertex names.now.author names.now.greatest ctor spot.now.vertex spot.now.place ∷ []) }
    ensures answer { IfOk result (λ plan. plan.answer ≡ Made (new_name names.now.author names.now.greatest 1)) }
{
    let vertex = names.vertex(ctor);
    let mut edits = EditList::new(alloc);
    put(&mut edits, names.name(2), spot, &vertex)?;
    Ok(Plan {
        edits,
        answer: Answer::Made {
            vertex: vertex.name,
        },
    })
}

fn wrap(
    alloc: Global,
    spot: &Spot,
    ctor: Ctor,
    below: Position,
    wrapped: &[Edge],
    names: &NewNames,
) -> Result<Plan, NoMemory>
    requires names { HasNames names.now (2 + length wrapped.now) }
    requires standing { CanStandIn spot.now (made_of names.now ctor) }
    requires old { All IsWellFormed wrapped.now }
    requires below { All (λ e. CanStandAt (made_of names.now ctor) below e.target) wrapped.now }
    ensures edits { IfOk result (λ plan. map plain plan.edits ≡ wrap_edits names.now.author names.now.greatest ctor spot.now.vertex spot.now.place (Some below) wrapped.now) }
    ensures answer { IfOk result (λ plan. plan.answer ≡ Made (new_name names.now.author names.now.greatest 1)) }
{
    let vertex = names.vertex(ctor);
    let mut edits = EditList::new(alloc);
    delete_each(&mut edits, wrapped)?;
    put(&mut edits, names.name(2), spot, &vertex)?;
    put_below(&mut edits, names, &vertex, below, wrapped)?;
    Ok(Plan {
        edits,
        answer: Answer::Made {
            vertex: vertex.name,
        },
    })
}

fn become_other(
    alloc: Global,
    spot: &Spot,
    ctor: Ctor,
    replaced: Edge,
    moved: &[Edge],
    names: &NewNames,
) -> Result<Plan, NoMemory>
    requires names { HasNames names.now (2 + length moved.now) }
    requires standing { CanStandIn spot.now (made_of names.now ctor) }
    requires replaced { IsWellFormed replaced }
    requires old { All IsWellFormed moved.now }
    requires below { All (λ e. CanStandAt (made_of names.now ctor) e.position e.target) moved.now }
    ensures edits { IfOk result (λ plan. map plain plan.edits ≡ deletion replaced
        ∷ to_new_vertex names.now.author names.now.greatest ctor spot.now.vertex spot.now.place
        ∷ carried_over names.now.author names.now.greatest (made_of names.now ctor) 3 moved.now) }
    ensures answer { IfOk result (λ plan. plan.answer ≡ Made (new_name names.now.author names.now.greatest 1)) }
{
    let vertex = names.vertex(ctor);
    let mut edits = EditList::new(alloc);
    delete(&mut edits, replaced)?;
    put(&mut edits, names.name(2), spot, &vertex)?;
    carry_over(&mut edits, names, &vertex, moved)?;
    Ok(Plan {
        edits,
        answer: Answer::Made {
            vertex: vertex.name,
        },
    })
}

fn delete_all(alloc: Global, edges: &[Edge]) -> Result<Plan, NoMemory>
    requires { All IsWellFormed edges.now }
    ensures edits { IfOk result (λ plan. map plain plan.edits ≡ deletions edges.now) }
    ensures answer { IfOk result (λ plan. plan.answer ≡ Done) }
{
    let mut edits = EditList::new(alloc);
    delete_each(&mut edits, edges)?;
    Ok(Plan {
        edits,
        answer: Answer::Done,
    })
}

fn relocate(alloc: Global, spot: &Spot, old: Edge, names: &NewNames) -> Result<Plan, NoMemory>
    requires names { HasNames names.now 1 }
    requires standing { CanStandIn spot.now old.target }
    requires old { IsWellFormed old }
    ensures edits { IfOk result (λ plan. map plain plan.edits ≡ relocate_edits names.now.author names.now.greatest spot.now.vertex spot.now.place (old ∷ [])) }
    ensures answer { IfOk result (λ plan. plan.answer ≡ Moved (new_name names.now.author names.now.greatest 1)) }
{
    let edge = names.name(1);
    let mut edits = EditList::new(alloc);
    delete(&mut edits, old)?;
    put(&mut edits, edge, spot, &old.target)?;
    Ok(Plan {
        edits,
        answer: Answer::Moved { edge },
    })
}

fn restore(alloc: Global, spot: &Spot, moved: &Vertex, names: &NewNames) -> Result<Plan, NoMemory>
    requires names { HasNames names.now 1 }
    requires standing { CanStandIn spot.now moved.now }
    ensures edits { IfOk result (λ plan. map plain plan.edits ≡ insertion (new_name names.now.author names.now.greatest 1) spot.now.vertex spot.now.place.position moved.now ∷ []) }
    ensures answer { IfOk result (λ plan. plan.answer ≡ Moved (new_name names.now.author names.now.greatest 1)) }
{
    let edge = names.name(1);
    let mut edits = EditList::new(alloc);
    put(&mut edits, edge, spot, moved)?;
    Ok(Plan {
        edits,
        answer: Answer::Moved { edge },
    })
}
