ghost use Rattle.std.specs.Prelude.{◌≡◌, ◌++◌, true, Some, List};
ghost use Rattle.std.specs.declared.cmp.Ordering.TheVariants.{Equal};
ghost use Rattle.std.specs.Cmp.{IsTotalOrder};
ghost use Rattle.grove_edits.specs.declared.edge.Edge.{Edge};
ghost use Rattle.grove_edits.specs.declared.edit.Edit.{Edit};
ghost use Rattle.grove_edits.specs.declared.vertex.Vertex.{Vertex};
ghost use Rattle.grove_edits.specs.Vertex.{vertex_cmp};
ghost use Rattle.grove_sorts.specs.Ctor.{sort_of_ctor, sort_at};
ghost use Rattle.grove_edits.specs.Edge.{edge_cmp, IsWellFormed, has_good_vertices};
ghost use Rattle.grove_edits.specs.Edit.{edit_edge, edit_kind};
ghost use Rattle.grove_edits.specs.Graph.{Graph, graph, graph_join, IsSame, IsBelow, IsCanonical, HasSameEdits};

use crate::edge::Edge;
use crate::vertex::Vertex;

/// Law: edges are totally ordered by name, source, position and target, the derived comparison is that order, and edges that
/// it finds equal are the same. The same holds of vertices.
pub fn edges_are_ordered()
    ensures vertices_total { IsTotalOrder vertex_cmp }
    ensures vertices_exact { (a b : Vertex) → vertex_cmp a b ≡ Equal → a ≡ b }
    ensures vertices_derived { (a b : Vertex) → ⟦<Vertex as Ord>⟧.cmp a b ≡ vertex_cmp a b }
    ensures edges_total { IsTotalOrder edge_cmp }
    ensures edges_exact { (a b : Edge) → edge_cmp a b ≡ Equal → a ≡ b }
    ensures edges_derived { (a b : Edge) → ⟦<Edge as Ord>⟧.cmp a b ≡ edge_cmp a b }
{}

/// Law: a well-formed edge has good vertices and stands at a position of its source whose children have the sort of its target.
pub fn a_well_formed_edge_fits()
    ensures vertices { (e : Edge) → IsWellFormed e → has_good_vertices e ≡ true }
    ensures place { (e : Edge) → IsWellFormed e → sort_at e.source.ctor e.position ≡ Some (sort_of_ctor e.target.ctor) }
{}

/// Law: an edit is its kind and its edge.
pub fn an_edit_is_its_kind_and_edge()
    ensures { (a b : Edit) → edit_kind a ≡ edit_kind b → edit_edge a ≡ edit_edge b → a ≡ b }
{}

/// Law: the join of graphs is associative, commutative and idempotent, and the least graph above both.
pub fn graphs_join()
    ensures associative { (f g h : Graph) → IsSame (graph_join (graph_join f g) h) (graph_join f (graph_join g h)) }
    ensures commutative { (g h : Graph) → IsSame (graph_join g h) (graph_join h g) }
    ensures idempotent { (g : Graph) → IsSame (graph_join g g) g }
    ensures above_first { (g h : Graph) → IsBelow g (graph_join g h) }
    ensures above_second { (g h : Graph) → IsBelow h (graph_join g h) }
    ensures least { (f g h : Graph) → IsBelow f h → IsBelow g h → IsBelow (graph_join f g) h }
{}

/// Law: the graph of two lists one after the other is the join of theirs. So edits commute, and lists with the same edits, in any
/// order and with any repeats, make the same graph.
pub fn edits_commute()
    ensures append { (a b : List Edit) → IsSame (graph (a ++ b)) (graph_join (graph a) (graph b)) }
    ensures same_edits { (a b : List Edit) → HasSameEdits a b → IsSame (graph a) (graph b) }
{}

/// Law: a graph has one canonical list, so lists with the same edits have the same one.
pub fn one_canonical_list()
    ensures one { (g : Graph) (a b : List Edit) → IsCanonical g a → IsCanonical g b → a ≡ b }
    ensures same_edits { (a b x y : List Edit) → HasSameEdits a b → IsCanonical (graph a) x → IsCanonical (graph b) y → x ≡ y }
{}
