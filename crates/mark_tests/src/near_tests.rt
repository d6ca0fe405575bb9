ghost use Rattle.std.specs.Prelude.{◌≡◌, false, ◌∷◌};
ghost use Rattle.grove_edits.specs.Edit.{edit_edge};
ghost use Rattle.grove_edits.specs.Graph.{graph};
ghost use Rattle.graph_words.specs.Whole.{AreLive, IsVertexOf};
ghost use Rattle.kept_records.specs.Change.{is_on_walks, IsNear, AreNear};
ghost use Rattle.kept_records.specs.Size.{IsSize};
ghost use Rattle.mark_tests.specs.Near.{argument, body, to_annotation, edits, before, after, near};

use std::test::Fail;

// What is near an edit, told by hand. The parameter of a function gets a type: near are the walk up from the type, and the argument, which
// is on no walk and is analysed against that type. The body of the function is not near, though it stands under the source of the edge.
fn what_is_near_is_told_by_hand()
    ensures live_before { AreLive (graph edits) before }
    ensures live_after { AreLive (graph (to_annotation ∷ edits)) after }
    ensures near { AreNear (edit_edge to_annotation) before after near }
    ensures off_the_walks { is_on_walks (edit_edge to_annotation) before after argument ≡ false }
    ensures is_there { IsVertexOf (graph edits) body }
    ensures far { IsNear (edit_edge to_annotation) before after body → ⊥ }
    ensures size { IsSize (edit_edge to_annotation) (graph edits) (graph (to_annotation ∷ edits)) 14 }
{}

#[test]
fn an_edit_is_near_to_what_it_changes() -> Result<(), Fail> {
    what_is_near_is_told_by_hand();
    Ok(())
}
