//! All that some equations say of each variable.
ghost use Rattle.std.specs.Prelude.{◌≡◌, ℕ, length, IfOk, MatchOption};
ghost use Rattle.std.specs.List.{AllByRecursion};
ghost use Rattle.type_infer.specs.Terms.{Term};
ghost use Rattle.type_infer.specs.Forms.{IsEquationOf};
ghost use Rattle.type_infer.specs.Links.{link_at, AreEqual, IsLinkedBy};

use crate::equation::Equation;
use crate::joining::add;
use crate::link::Link;
use std::alloc::Global;
use text_parts::NoMemory;

// Links of so many variables of which nothing is known.
fn free_links(alloc: Global, variables: u32) -> Result<Vec<Link>, NoMemory>
    ensures count { IfOk result (λ links. length links.items ≡ variables) }
    ensures free { IfOk result (λ links. (v : ℕ) → link_at links.items v ≡ Link.Free) }
{
    let mut links = Vec::new(alloc);
    links.resize(variables as usize, Link::Free)?;
    Ok(links)
}

/// What equations say of each variable, or None where no terms make them all equalities.
pub(crate) fn link_all(
    alloc: Global,
    variables: u32,
    equations: &[Equation],
) -> Result<Option<Vec<Link>>, NoMemory>
    requires { AllByRecursion (IsEquationOf variables) equations.now }
    ensures { IfOk result (λ found. MatchOption found
        ((terms : ℕ → Term) → AreEqual terms equations.now → ⊥)
        (λ links. IsLinkedBy variables equations.now links.items)) }
{
    let mut links = free_links(alloc, variables)?;
    let mut joins = Vec::new(alloc);
    for equation in equations {
        if !add(&mut links, &mut joins, *equation)? {
            return Ok(None);
        }
    }
    Ok(Some(links))
}
