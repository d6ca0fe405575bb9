//! Laws of the definitions that the calls answer by, and worked values. They run no code.
ghost use Rattle.std.specs.Prelude.{◌≡◌, ℕ, ◌∷◌, [], ◌++◌, List};
ghost use Rattle.grove_sorts.specs.declared.ident.Ident.{Ident};
ghost use Rattle.grove_sorts.specs.declared.ctor.Ctor.TheVariants as ctor;
ghost use Rattle.type_core.specs.Typ as typ;
ghost use Rattle.type_infer.specs.Terms.{Term, Variable, Num, Boolean, Pair};
ghost use Rattle.type_infer.specs.Equations.{TermEquation, IsSolution, HasSolution, IsMostGeneral, IsLeastClash};
ghost use Rattle.type_infer.specs.TreeEquations.{equal, tree_equations};
ghost use Rattle.type_infer.specs.Examples.{program, sum, sum_with, self_application, sum_equations, self_equations, conflict, reference, case_on, defined};

use type_core::Former;

/// Law: equations that have most general terms have a solution.
pub fn most_general_terms_give_a_solution()
    ensures { (equations : List TermEquation) (terms : List Term) → IsMostGeneral equations terms → HasSolution equations }
{}

/// Worked value: a function whose parameter is added to 1 takes numbers. Its type stands at line 3.
pub fn a_parameter_that_is_added_is_a_number()
    ensures equations { (x : Ident) → tree_equations program (sum_with x (ctor.Num 1)) ≡ sum_equations ++ equal (Variable 18) Num ∷ [] }
    ensures solved { (x : Ident) → HasSolution (tree_equations program (sum_with x (ctor.Num 1))) }
    ensures number { (x : Ident) (types : ℕ → typ.Typ) → IsSolution (tree_equations program (sum_with x (ctor.Num 1))) types → types 9 ≡ typ.Num }
{}

/// Worked value: a sum with a truth value has no types, and equation 5 is the first that tells it.
pub fn a_truth_value_is_not_added()
    ensures equations { (x : Ident) → tree_equations program (sum_with x ctor.LitTrue) ≡ sum_equations ++ equal (Variable 18) Boolean ∷ [] }
    ensures clash { (x : Ident) → IsLeastClash (tree_equations program (sum_with x ctor.LitTrue)) 5 }
{}

/// Worked value: a parameter that is applied to itself has no finite type, and equation 3 is the first that tells it.
pub fn nothing_is_applied_to_itself()
    ensures equations { (x : Ident) → tree_equations program (self_application x) ≡ self_equations ++ equal (Variable 18) (Variable 9) ∷ [] }
    ensures clash { (x : Ident) → IsLeastClash (tree_equations program (self_application x)) 3 }
{}

/// Worked values: the children of a conflict stand behind its line, and a reference has a line without equations.
pub fn conflicts_and_references_have_lines()
    ensures conflict { tree_equations sum conflict
        ≡ equal (Variable 3) Num ∷ equal (Variable 12) Num ∷ equal (Variable 0) Num ∷ equal (Variable 6) Num ∷ equal (Variable 9) Num ∷ [] }
    ensures reference { tree_equations sum reference
        ≡ equal (Variable 3) Num ∷ equal (Variable 6) Num ∷ equal (Variable 0) Num ∷ equal (Variable 6) Num ∷ [] }
{}

/// Worked values: a variable is that of the innermost binder. The bodies of a case have its second variable and its third, and a
/// definition is not bound in itself.
pub fn the_innermost_binder_counts()
    ensures choice { (x : Ident) → tree_equations program (case_on x)
        ≡ equal (Variable 3) (Pair Former.Arrow (Variable 9) (Variable 12)) ∷ equal (Variable 15) (Pair Former.Sum (Variable 13) (Variable 14))
        ∷ equal (Variable 21) (Variable 12) ∷ equal (Variable 27) (Variable 12) ∷ equal (Variable 15) (Variable 9)
        ∷ equal (Variable 21) (Variable 13) ∷ equal (Variable 27) (Variable 9) ∷ [] }
    ensures definition { (x : Ident) → tree_equations program (defined x)
        ≡ equal (Variable 3) (Pair Former.Arrow (Variable 9) (Variable 12)) ∷ equal (Variable 12) (Variable 21) ∷ equal (Variable 18) (Variable 9)
        ∷ equal (Variable 21) (Variable 18) ∷ [] }
{}
