ghost use Rattle.std.specs.Prelude.{◌≡◌, ◌<◌, ◌^◌, [], ◌∷◌, ◌++◌, length, OnOk, OnErr};
ghost use Rattle.type_infer.specs.Forms.{term_equation, IsEquationOf};

use crate::equation::Equation;
use list_of::ListOf;
use std::alloc::Global;
use std::marker::Model;
use text_parts::NoMemory;

/// Equations in order, between terms whose variables are the numbers below a bound.
#[derive(Debug, Drop)]
pub struct EqList {
    pub(crate) variables: u32,
    pub(crate) equations: ListOf<Equation>,
}

impl Model for EqList {
    ghost use Rattle.std.specs.Prelude.{map};
    ghost use Rattle.std.specs.List.{AllByRecursion};
    ghost use Rattle.type_infer.specs.EqList.{Listed, listed_code};

    ghost Value = { Listed };

    ghost coded = { listed_code };

    ghost use Rattle.type_infer.specs.Forms.{term_equation, IsEquationOf};

    ghost view = { λ l. record { variables = l.variables; equations = map term_equation l.equations } };

    ghost invariant = { λ l. AllByRecursion (IsEquationOf l.variables) l.equations };
}

impl EqList {
    /// No equations yet, for so many variables.
    pub fn new(alloc: Global, variables: u32) -> EqList
        ensures variables { result.variables ≡ variables }
        ensures empty { result.equations ≡ [] }
    {
        EqList {
            variables,
            equations: ListOf::new(alloc),
        }
    }

    /// Appends an equation of these variables.
    pub fn push(&mut self, equation: Equation) -> Result<(), NoMemory>
        requires { IsEquationOf self.old.variables equation }
        ensures appended { OnOk result (self.new.equations ≡ self.old.equations ++ term_equation equation ∷ []) }
        ensures variables { self.new.variables ≡ self.old.variables }
        ensures unchanged { OnErr result (self.new ≡ self.old) }
    {
        self.equations.push(equation)
    }

    /// How many equations it has.
    pub fn len(&self) -> usize
        ensures { result ≡ length self.now.equations }
    {
        self.equations.len()
    }
}
