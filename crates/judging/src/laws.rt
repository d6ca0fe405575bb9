ghost use Rattle.std.specs.Prelude.{◌≡◌, []};
ghost use Rattle.grove_edits.specs.declared.vertex.Vertex.{Vertex};
ghost use Rattle.grove_terms.specs.Forest.{Forest, IsWellSorted};
ghost use Rattle.grove_terms.specs.Nodes.{tree_nodes};
ghost use Rattle.marking.specs.Marking.{marked_tree};
ghost use Rattle.judging.specs.Machine.{at, run};

/// Law: the nodes of a well-sorted tree, taken one by one, leave nothing open and give its marked nodes.
pub fn taking_all_nodes_marks_the_tree()
    ensures { (v : Vertex) (f : Forest) → IsWellSorted v f → run (at [] []) (tree_nodes v f) ≡ at [] (marked_tree v f) }
{}
