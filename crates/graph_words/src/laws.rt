ghost use Rattle.std.specs.Prelude.{◌≡◌, List};
ghost use Rattle.grove_edits.specs.declared.vertex.Vertex.{Vertex};
ghost use Rattle.grove_edits.specs.declared.edge.Edge.{Edge};
ghost use Rattle.graph_words.specs.Walk.{IsWalk, walk};

/// Law: the walk up from a vertex is the one list that begins with it, goes on to the vertex above the last one, has no vertex
/// twice, and ends where no vertex is above or where that vertex already stands on it.
pub fn a_walk_ends()
    ensures walk { (edges : List Edge) (v : Vertex) → IsWalk edges v (walk edges v) }
    ensures one { (edges : List Edge) (v : Vertex) (xs : List Vertex) → IsWalk edges v xs → xs ≡ walk edges v }
{}
