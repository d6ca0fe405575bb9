ghost use Rattle.std.specs.Prelude.{◌≡◌, List, []};
ghost use Rattle.grove_edits.specs.declared.vertex.Vertex.{Vertex};
ghost use Rattle.grove_edits.specs.declared.edge.Edge.{Edge};
ghost use Rattle.grove_edits.specs.declared.edit.Edit.{Edit};
ghost use Rattle.grove_edits.specs.Graph.{graph};
ghost use Rattle.graph_words.specs.declared.class.Class.TheVariants.{Inner};
ghost use Rattle.graph_words.specs.Class.{class};
ghost use Rattle.graph_words.specs.Whole.{IsVertexOf, AreLive};
ghost use Rattle.grove_terms.specs.Forest.{Forest, StandsUnder};
ghost use Rattle.grove_terms.specs.Nodes.{tree_nodes};
ghost use Rattle.marking.specs.Marking.{marked_tree};
ghost use Rattle.kept_records.specs.Kept.{Records, AreKept};
ghost use Rattle.kept_printer.specs.Above.{nodes_told};

/// Law: the nodes of a tree of a graph of edits, told one by one from the records of its vertices and from what stands above each, are
/// those of its marking.
pub fn records_tell_the_marking()
    ensures { (edits : List Edit) (live : List Edge) (records : Records) (head : Vertex) (forest : Forest) → AreLive (graph edits) live
        → AreKept (graph edits) live records → IsVertexOf (graph edits) head → (class live head ≡ Inner → ⊥) → StandsUnder live head forest
        → nodes_told records [] (tree_nodes head forest) ≡ marked_tree head forest }
{}
