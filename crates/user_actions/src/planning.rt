ghost use Rattle.std.specs.Prelude.{◌≡◌, ◌<◌, IfOk, IfErr};
ghost use Rattle.graph_words.specs.Whole.{AreLive};
ghost use Rattle.user_actions.specs.Good.{AreWellFormed, AreOpening};
ghost use Rattle.user_actions.specs.Lists.{GraphLists, AreListsOf};
ghost use Rattle.user_actions.specs.After.{IsAccepted};
ghost use Rattle.user_actions.specs.Plan.{IsPlan};
ghost use Rattle.user_actions.specs.Planned.{CanPlan, IsRefusal, TellsPlan};

use crate::admitted::made;
use crate::admitting::admit;
use crate::plan_view::PlanView;
use crate::planned::{Plan, PlanFault};
use grove_edits::Action;
use std::alloc::Global;

/// Plans an author's action on the graph of a view: its edits and its answer, or the first fault that applies.
pub fn plan<V: PlanView>(
    alloc: Global,
    view: &V,
    author: u32,
    action: &Action,
) -> Result<Plan, PlanFault>
    requires author { 0 < author }
    requires well_formed { AreWellFormed (V.states view.now) }
    requires opening { AreOpening (V.states view.now) (V.opening view.now) }
    requires children { AreLive (V.states view.now) (V.children view.now) }
    requires parents { AreLive (V.states view.now) (V.live view.now) }
    ensures planned { IfOk result (λ plan. IsPlan (V.states view.now) (V.opening view.now) author action.now plan.edits plan.answer) }
    ensures accepted { IfOk result (λ plan. IsAccepted plan.answer) }
    ensures refused { IfErr result (λ fault. IsRefusal (V.states view.now) (V.opening view.now) author action.now fault) }
{
    view.known();
    plan_action(alloc, view, author, action)
}

fn plan_action<V: PlanView>(
    alloc: Global,
    view: &V,
    author: u32,
    action: &Action,
) -> Result<Plan, PlanFault>
    requires { CanPlan (V.states view.now) (V.opening view.now) (V.children view.now) (V.live view.now) author }
    ensures { (lists : GraphLists) → AreListsOf (V.states view.now) lists
        → TellsPlan lists (V.opening view.now) author action.now result }
{
    let found = admit(alloc, view, author, action)?;
    let plan = made(alloc, &found)?;
    Ok(plan)
}
