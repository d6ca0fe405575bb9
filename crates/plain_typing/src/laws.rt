ghost use Rattle.std.specs.Prelude.{◌≡◌, ◌↔◌, ℕ, Some};
ghost use Rattle.grove_sorts.specs.declared.position.Position.{Position};
ghost use Rattle.grove_sorts.specs.declared.sort.Sort.TheVariants.{Exp};
ghost use Rattle.grove_sorts.specs.Ctor.{sort_at};
ghost use Rattle.grove_edits.specs.declared.vertex.Vertex.{Vertex};
ghost use Rattle.grove_terms.specs.Forest.{Forest, IsWellSorted};
ghost use Rattle.type_core.specs.Typ.{Typ};
ghost use Rattle.mark_step.specs.Expression.{Demanded};
ghost use Rattle.marking.specs.Marking.{judged_in, marked_children, marked_tree, HasNoMark};
ghost use Rattle.plain_typing.specs.Typed.{EachHasType, HasTypeAt, IsTyped};

/// Law: what has a type, in any scope and whether it synthesises or is analysed, has the type that marking gives it.
pub fn a_type_is_the_one_of_the_marking()
    ensures { (v : Vertex) (f : Forest) (p : Position) (d : Demanded) (t : Typ) → IsWellSorted v f → sort_at v.ctor p ≡ Some Exp
        → HasTypeAt f p d t → t ≡ judged_in f p d }
{}

/// Law: trees have no mark exactly where they are typed: by themselves, and as children in any scope, whether they synthesise or are
/// analysed.
pub fn typed_trees_have_no_marks()
    ensures whole { (v : Vertex) (f : Forest) → IsWellSorted v f → IsTyped v f ↔ HasNoMark (marked_tree v f) }
    ensures children { (v : Vertex) (f : Forest) (p : Position) (d : Demanded) (depth : ℕ) → IsWellSorted v f → sort_at v.ctor p ≡ Some Exp
        → EachHasType f p d (λ t. Unit {0}) ↔ HasNoMark (marked_children f depth p d) }
{}
