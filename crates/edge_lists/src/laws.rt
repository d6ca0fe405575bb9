ghost use Rattle.std.specs.Prelude.{◌≡◌, ℕ, List, map};
ghost use Rattle.grove_edits.specs.declared.edge.Edge.{Edge};
ghost use Rattle.grove_edits.specs.Edge.{edge_cmp};
ghost use Rattle.graph_words.specs.Live.{IsInEdgeOrder};
ghost use Rattle.graph_words.specs.Ordered.{with_edge};
ghost use Rattle.edge_numbers.specs.Numbered.{Numbered, edge_at, KeepsNumbers};
ghost use Rattle.edge_lists.specs.Lists.{AreEdgeNumbers};
ghost use Rattle.edge_lists.specs.Order.{IsInOrder, with_edge_by};

/// A list by edge is one in edge order, in which an edge is put as in any such list.
pub fn lists_by_edge_are_in_edge_order()
    ensures in_order { (xs : List Edge) → IsInOrder edge_cmp xs → IsInEdgeOrder xs }
    ensures no_other { (xs : List Edge) → IsInEdgeOrder xs → IsInOrder edge_cmp xs }
    ensures put { (e : Edge) (xs : List Edge) → with_edge_by edge_cmp e xs ≡ with_edge e xs }
{}

/// While numbers stay, a list of them is of the same edges.
pub fn listed_edges_stay()
    ensures known { (before after : Numbered) (numbers : List ℕ) → KeepsNumbers before after → AreEdgeNumbers before numbers → AreEdgeNumbers after numbers }
    ensures edges { (before after : Numbered) (numbers : List ℕ) → KeepsNumbers before after → AreEdgeNumbers before numbers → map (edge_at after) numbers ≡ map (edge_at before) numbers }
{}
