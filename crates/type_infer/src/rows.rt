//! The equations of one line, by the form that stands there.
ghost use Rattle.std.specs.Prelude.{◌≡◌, ℕ, ◌+◌, ◌^◌, ◌<◌, ◌++◌, OnOk, IfSome};
ghost use Rattle.grove_sorts.specs.declared.position.Position.{Position};
ghost use Rattle.grove_sorts.specs.Ctor.{positions};
ghost use Rattle.type_infer.specs.Terms.{Variable};
ghost use Rattle.type_infer.specs.TreeEquations.{form_equations};
ghost use Rattle.type_infer.specs.Rows.{few_equations, place_list, StandAt, ArePlacesOf, AreFewOf};

use crate::eq_list::EqList;
use crate::equation::Equation;
use crate::form::Form;
use grove_sorts::Ctor;
use text_parts::NoMemory;
use type_core::Former;

/// The equations of a line.
#[derive(Clone, Copy, Debug)]
pub(crate) enum Few {
    Zero,
    One(Equation),
    Three(Equation, Equation, Equation),
}

/// The first variables of the lines at the positions of a vertex, in table order.
#[derive(Clone, Copy, Debug)]
pub(crate) struct Places {
    pub(crate) first: u32,
    pub(crate) second: u32,
    pub(crate) third: u32,
    pub(crate) fourth: u32,
    pub(crate) fifth: u32,
}

/// Positions of a line that stands under no other yet.
pub(crate) const NOWHERE: Places = Places {
    first: 0,
    second: 0,
    third: 0,
    fourth: 0,
    fifth: 0,
};

// A variable is two others under a former.
fn pair(variable: u32, former: Former, first: u32, second: u32) -> Equation
    ensures { result ≡ Equation.Formed variable (Form.Pair former first second) }
{
    Equation::Formed(variable, Form::Pair(former, first, second))
}

/// The equations of a form whose line has `x` and the next two variables, and whose name is bound to a variable, if it has one.
pub(crate) fn row(ctor: &Ctor, at: Places, x: u32, bound: Option<u32>) -> Few
    requires { x + 2 < 2 ^ 32 }
    ensures table { (lines : Position → ℕ) → StandAt lines (positions ctor.now) (place_list at)
        → few_equations result ≡ form_equations ctor.now (λ p. Variable (lines p)) (Variable x) (Variable (x + 1)) (Variable (x + 2)) bound }
    ensures within { (variables : ℕ) → x + 2 < variables → ArePlacesOf variables at → IfSome bound (λ b. b < variables) → AreFewOf variables result }
{
    let y = x + 1;
    let z = x + 2;
    match ctor {
        Ctor::Root | Ctor::PVar(_) => Few::Zero,
        Ctor::Var(_) => match bound {
            None => Few::Zero,
            Some(binder) => Few::One(Equation::Same(x, binder)),
        },
        Ctor::Num(_) | Ctor::TNum => Few::One(Equation::Formed(x, Form::Num)),
        Ctor::LitTrue | Ctor::LitFalse | Ctor::TBool => Few::One(Equation::Formed(
            x,
            Form::Boolean,
        )),
        Ctor::Plus => Few::Three(
            Equation::Formed(at.first, Form::Num),
            Equation::Formed(at.second, Form::Num),
            Equation::Formed(x, Form::Num),
        ),
        Ctor::Choose => Few::Three(
            Equation::Formed(at.first, Form::Boolean),
            Equation::Same(at.second, x),
            Equation::Same(at.third, x),
        ),
        Ctor::Case => Few::Three(
            pair(at.first, Former::Sum, y, z),
            Equation::Same(at.third, x),
            Equation::Same(at.fifth, x),
        ),
        Ctor::Let => Few::One(Equation::Same(x, at.third)),
        Ctor::Lam => Few::One(pair(x, Former::Arrow, at.second, at.third)),
        Ctor::Ap => Few::One(pair(at.first, Former::Arrow, at.second, x)),
        Ctor::Fst => Few::One(pair(at.first, Former::Product, x, y)),
        Ctor::Snd => Few::One(pair(at.first, Former::Product, y, x)),
        Ctor::Inl => Few::One(pair(x, Former::Sum, at.first, y)),
        Ctor::Inr => Few::One(pair(x, Former::Sum, y, at.first)),
        Ctor::TArrow => Few::One(pair(x, Former::Arrow, at.first, at.second)),
        Ctor::Pair | Ctor::TProd => Few::One(pair(x, Former::Product, at.first, at.second)),
        Ctor::TSum => Few::One(pair(x, Former::Sum, at.first, at.second)),
    }
}

/// Appends the equations of a form, as `row` gives them. Memory may run out between them.
pub(crate) fn push_row(
    list: &mut EqList,
    ctor: &Ctor,
    at: Places,
    x: u32,
    bound: Option<u32>,
) -> Result<(), NoMemory>
    requires fits { x + 2 < 2 ^ 32 }
    requires line { x + 2 < list.old.variables }
    requires places { ArePlacesOf list.old.variables at }
    requires bound { IfSome bound (λ b. b < list.old.variables) }
    ensures appended { OnOk result ((lines : Position → ℕ) → StandAt lines (positions ctor.now) (place_list at)
        → list.new.equations ≡ list.old.equations
        ++ form_equations ctor.now (λ p. Variable (lines p)) (Variable x) (Variable (x + 1)) (Variable (x + 2)) bound) }
    ensures variables { list.new.variables ≡ list.old.variables }
{
    push_few(list, row(ctor, at, x, bound))
}

fn push_few(list: &mut EqList, few: Few) -> Result<(), NoMemory>
    requires { AreFewOf list.old.variables few }
    ensures appended { OnOk result (list.new.equations ≡ list.old.equations ++ few_equations few) }
    ensures variables { list.new.variables ≡ list.old.variables }
{
    match few {
        Few::Zero => {}
        Few::One(only) => list.push(only)?,
        Few::Three(first, second, third) => {
            list.push(first)?;
            list.push(second)?;
            list.push(third)?;
        }
    }
    Ok(())
}
