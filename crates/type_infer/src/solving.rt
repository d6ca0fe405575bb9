ghost use Rattle.std.specs.Prelude.{◌≡◌, ◌-◌, ◌<◌, length, map, IfOk, IfSome, MatchOption};
ghost use Rattle.std.specs.List.{AllByRecursion};
ghost use Rattle.type_infer.specs.Forms.{term_equation, IsEquationOf};
ghost use Rattle.type_infer.specs.Equations.{HasNoSolution, IsMostGeneral, IsLeastClash};
ghost use Rattle.type_infer.specs.Inference.{IsAnswer};

use crate::eq_list::EqList;
use crate::equation::Equation;
use crate::linking::link_all;
use crate::placing::place_all;
use crate::solution::Solution;
use std::alloc::Global;
use text_parts::NoMemory;

/// The answer to equations.
#[derive(Debug, Drop)]
pub enum Inference {
    Solved(Solution),
    /// The equations up to this one, counted from 0, have no solution.
    Clash { equation: u64 },
}

// The most general terms of some equations, or None where these have no solution.
fn attempt(
    alloc: Global,
    variables: u32,
    equations: &[Equation],
) -> Result<Option<Solution>, NoMemory>
    requires { AllByRecursion (IsEquationOf variables) equations.now }
    ensures found { IfOk result (λ found. MatchOption found
        (HasNoSolution (map term_equation equations.now)) (IsMostGeneral (map term_equation equations.now))) }
    ensures count { IfOk result (λ found. IfSome found (λ s. length s ≡ variables)) }
{
    match link_all(alloc, variables, equations)? {
        None => Ok(None),
        Some(links) => place_all(alloc, &links),
    }
}

// The least number of equations, of some that have no solution, that have none. Whether so many have one is asked of about half of
// those that are in question.
fn clashing_count(alloc: Global, variables: u32, equations: &[Equation]) -> Result<usize, NoMemory>
    requires equations { AllByRecursion (IsEquationOf variables) equations.now }
    requires clash { HasNoSolution (map term_equation equations.now) }
    ensures some { IfOk result (λ count. 0 < count) }
    ensures clash { IfOk result (λ count. IsLeastClash (map term_equation equations.now) (count - 1)) }
{
    let mut solved = 0;
    let mut clashing = equations.len();
    while solved + 1 < clashing {
        let middle = solved + (clashing - solved) / 2;
        match attempt(alloc, variables, &equations[..middle])? {
            Some(_) => solved = middle,
            None => clashing = middle,
        }
    }
    Ok(clashing)
}

/// Solves equations: their most general terms, or the least number up to which they have no solution. The work grows little faster than
/// the number of equations and variables, and terms that share parts are not written out.
pub fn solve(alloc: Global, list: &EqList) -> Result<Inference, NoMemory>
    ensures answer { IfOk result (IsAnswer list.now) }
{
    let equations = list.equations.as_slice();
    if let Some(solution) = attempt(alloc, list.variables, equations)? {
        return Ok(Inference::Solved(solution));
    }
    let count = clashing_count(alloc, list.variables, equations)?;
    Ok(Inference::Clash {
        equation: (count - 1) as u64,
    })
}
