ghost use Rattle.std.specs.Prelude.{◌≡◌, ◌<◌, length, IfOk};
ghost use Rattle.grove_edits.specs.Graph.{graph};
ghost use Rattle.user_actions.specs.Plan.{IsPlan};
ghost use Rattle.replica_core.specs.Content.{Content};
ghost use Rattle.replica_core.specs.Plain.{as_edits};
ghost use Rattle.replica_core.specs.Shown.{Shows};
ghost use Rattle.replica_core.specs.Step.{plan_of, plan_by, effect, reply};

use grove_edits::{Action, Actor, Answer, Command, EditList};
use std::alloc::Global;
use text_parts::NoMemory;
use user_actions::{Plan, PlanFault, PlanView, plan};

/// The edits of an author's action and what is answered, before any of them is taken. An action that is refused has no edits.
pub fn planned<V: PlanView>(
    alloc: Global,
    view: &V,
    author: u32,
    action: &Action,
) -> Result<(EditList, Answer), NoMemory>
    requires author { 0 < author }
    requires shown { (content : Content) × Shows (V.states view.now) (V.children view.now) (V.live view.now) (V.opening view.now) content }
    ensures plan { (content : Content) → Shows (V.states view.now) (V.children view.now) (V.live view.now) (V.opening view.now) content
        → IfOk result (λ made. IsPlan (graph content.edits) content.opening author action.now made.0 made.1) }
    ensures edits { (content : Content) → Shows (V.states view.now) (V.children view.now) (V.live view.now) (V.opening view.now) content
        → IfOk result (λ made. made.0 ≡ as_edits (plan_of content author action.now).edits) }
    ensures answer { (content : Content) → Shows (V.states view.now) (V.children view.now) (V.live view.now) (V.opening view.now) content
        → IfOk result (λ made. made.1 ≡ (plan_of content author action.now).answer) }
{
    match plan(alloc, view, author, action) {
        Ok(Plan { edits, answer }) => Ok((edits, answer)),
        Err(PlanFault::Refused(fault)) => Ok((EditList::new(alloc), Answer::Refused(fault))),
        Err(PlanFault::NoMemory) => Err(NoMemory),
    }
}

/// The edits of a step and what is answered, before any of them is taken.
pub fn due<V: PlanView>(
    alloc: Global,
    view: &V,
    actor: Actor,
    command: &Command,
) -> Result<(EditList, Answer), NoMemory>
    requires { (content : Content) × Shows (V.states view.now) (V.children view.now) (V.live view.now) (V.opening view.now) content }
    ensures edits { (content : Content) → Shows (V.states view.now) (V.children view.now) (V.live view.now) (V.opening view.now) content
        → IfOk result (λ due. due.0 ≡ effect content actor command.now) }
    ensures answer { (content : Content) → Shows (V.states view.now) (V.children view.now) (V.live view.now) (V.opening view.now) content
        → IfOk result (λ due. due.1 ≡ reply content actor command.now) }
{
    match command {
        Command::Act(action) => planned_by(alloc, view, actor, action),
        Command::Take { edits, .. } => handed_in(alloc, edits),
    }
}

// Nobody plans anything but an author, whose number is at least 1.
fn planned_by<V: PlanView>(
    alloc: Global,
    view: &V,
    actor: Actor,
    action: &Action,
) -> Result<(EditList, Answer), NoMemory>
    requires { (content : Content) × Shows (V.states view.now) (V.children view.now) (V.live view.now) (V.opening view.now) content }
    ensures edits { (content : Content) → Shows (V.states view.now) (V.children view.now) (V.live view.now) (V.opening view.now) content
        → IfOk result (λ made. made.0 ≡ as_edits (plan_by content actor action.now).edits) }
    ensures answer { (content : Content) → Shows (V.states view.now) (V.children view.now) (V.live view.now) (V.opening view.now) content
        → IfOk result (λ made. made.1 ≡ (plan_by content actor action.now).answer) }
{
    match actor {
        Actor::Author(author) if 0 < author => planned(alloc, view, author, action),
        Actor::Host | Actor::Author(_) | Actor::Send(_) => {
            Ok((EditList::new(alloc), Answer::Done))
        }
    }
}

// A copy of edits that are handed in, and their number.
fn handed_in(alloc: Global, edits: &EditList) -> Result<(EditList, Answer), NoMemory>
    ensures edits { IfOk result (λ taken. taken.0 ≡ edits.now) }
    ensures answer { IfOk result (λ taken. taken.1 ≡ Answer.Taken (length edits.now)) }
{
    let mut copy = EditList::new(alloc);
    // A step of a journal often has one edit, and room for more would be kept with it.
    copy.reserve(edits.len())?;
    copy.extend_from_slice(edits.as_slice())?;
    let answer = Answer::Taken {
        edits: edits.len() as u64,
    };
    Ok((copy, answer))
}
