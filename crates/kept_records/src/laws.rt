ghost use Rattle.std.specs.Prelude.{◌≡◌, ◌⊎◌, ◌≤◌, ℕ, Bool, ◌+◌, ◌*◌, true, false, List, [], ◌∷◌, ◌++◌, length, sum_by, Some, None};
ghost use Rattle.std.specs.List.{AllByRecursion};
ghost use Rattle.grove_edits.specs.declared.edge.Edge.{Edge};
ghost use Rattle.grove_edits.specs.declared.edit.Edit.{Edit};
ghost use Rattle.grove_edits.specs.declared.vertex.Vertex.{Vertex};
ghost use Rattle.grove_edits.specs.Edit.{edit_edge};
ghost use Rattle.grove_edits.specs.Graph.{Graph, IsSame, graph};
ghost use Rattle.graph_words.specs.declared.class.Class.TheVariants.{Inner};
ghost use Rattle.graph_words.specs.Class.{class, is_cycle_root};
ghost use Rattle.grove_edits.specs.Vertex.{stands_in};
ghost use Rattle.grove_sorts.specs.declared.sort.Sort.TheVariants.{Top, Exp};
ghost use Rattle.grove_sorts.specs.Ctor.{sort_of_ctor};
ghost use Rattle.grove_sorts.specs.Position.{is_same_position};
ghost use Rattle.graph_words.specs.Walk.{above, walk};
ghost use Rattle.graph_words.specs.Whole.{AreLive, IsVertexOf};
ghost use Rattle.graph_words.specs.Cycle.{is_on_cycle, leads_to};
ghost use Rattle.grove_terms.specs.declared.grove.Grove.{Grove};
ghost use Rattle.grove_terms.specs.declared.node.Node.{Node};
ghost use Rattle.grove_terms.specs.Forest.{Forest, none, multi_ref, cycle_ref, tree, StandsUnder, edges_under};
ghost use Rattle.grove_terms.specs.Grove.{IsGrove, IsTreeOf, AreTreesOf};
ghost use Rattle.grove_sorts.specs.declared.position.Position.{Position};
ghost use Rattle.grove_terms.specs.Nodes.{count_at};
ghost use Rattle.type_core.specs.Typ.{Typ, Unknown};
ghost use Rattle.type_core.specs.TypeTable as type_table;
ghost use Rattle.ctx_table.specs.Context.{Context};
ghost use Rattle.ctx_table.specs.CtxTable as ctx_table;
ghost use Rattle.mark_step.specs.declared.node.Demand.{Demand};
ghost use Rattle.mark_step.specs.Node.{IsDemandOf};
ghost use Rattle.mark_step.specs.Node as node;
ghost use Rattle.mark_step.specs.Expression.{Demanded};
ghost use Rattle.mark_step.specs.Step.{settled};
ghost use Rattle.marking.specs.Types.{type_in, tree_type, name_in, pattern_name};
ghost use Rattle.marking.specs.Marking.{marked_tree, judged_in, children_types};
ghost use Rattle.kept_records.specs.Kept.{Kept, Records, AreKept, Stands, IsTreeIn, alone, kept_of, expression_of, demanded_at};
ghost use Rattle.kept_records.specs.Local.{AreRight, kept_demand};
ghost use Rattle.kept_records.specs.Told.{Tells};
ghost use Rattle.kept_records.specs.Change.{is_on_walks, CyclesStay, IsAmong, trees_in, AreTouched, node_count, leaving, StandsIn, IsConcerned, IsNear, StandOnce, AreNear, weight, near_size};
ghost use Rattle.kept_records.specs.Size.{AreNearIn, IsSize};
ghost use Rattle.kept_records.specs.Short.{SourceAloneSees, LeadsUp, IsJudgedAnew, IsShortWalk, TypeStays};
ghost use Rattle.kept_records.specs.Conflict.{IsConflictWalk};
ghost use Rattle.kept_records.specs.Renewal.{IsLeft, HasToBeJudged, MakesUnder, AreMadeSoFar, MakesTrees, AreHeads, names, put, CoverConcerned, AreAllInTrees};

/// Law: every graph of edits has records of its vertices, and only one of each.
pub fn each_vertex_has_one_record()
    ensures some { (edits : List Edit) (live : List Edge) → AreLive (graph edits) live → (records : Records) × AreKept (graph edits) live records }
    ensures one { (edits : List Edit) (live : List Edge) (a b : Records) → AreLive (graph edits) live
        → AreKept (graph edits) live a → AreKept (graph edits) live b → (v : Vertex) → a v ≡ b v }
{}

/// Law: in the marking of each tree of a graph of edits, the node of a vertex has what is wanted of it, the type and the mark that are
/// in its record.
pub fn marking_tells_the_records()
    ensures { (edits : List Edit) (live : List Edge) (head : Vertex) (forest : Forest) → AreLive (graph edits) live
        → (class live head ≡ Inner → ⊥) → StandsUnder live head forest → AllByRecursion (Tells live) (marked_tree head forest) }
{}

/// Law: records are those of a graph of edits exactly where each is right by those of its neighbours: what is demanded of a vertex by
/// the record of the vertex above it, its type and its mark by that demand and the records of its children.
pub fn records_are_right_at_each_vertex()
    ensures right { (edits : List Edit) (live : List Edge) (records : Records) → AreLive (graph edits) live
        → AreKept (graph edits) live records → AreRight (graph edits) live records }
    ensures kept { (edits : List Edit) (live : List Edge) (records : Records) → AreLive (graph edits) live
        → AreRight (graph edits) live records → AreKept (graph edits) live records }
{}

/// Law: a tree whose head an edit does not concern, and was a vertex before it, is in the grove before it and in the grove after it.
pub fn trees_of_no_concern_stay()
    ensures was { (edits : List Edit) (edit : Edit) (a b : Grove) (before : IsGrove (graph edits) a) (after : IsGrove (graph (edit ∷ edits)) b)
        (head : Vertex) (tree : List Node) → IsVertexOf (graph edits) head → (class after.live head ≡ Inner → ⊥) → IsTreeOf after.live head tree
        → (IsConcerned (edit_edge edit) after.live before.live after.live head → ⊥) → IsAmong tree (trees_in a) }
    ensures stays { (edits : List Edit) (edit : Edit) (a b : Grove) (before : IsGrove (graph edits) a) (after : IsGrove (graph (edit ∷ edits)) b)
        (head : Vertex) (tree : List Node) → IsVertexOf (graph edits) head → (class before.live head ≡ Inner → ⊥) → IsTreeOf before.live head tree
        → (IsConcerned (edit_edge edit) before.live after.live before.live head → ⊥) → IsAmong tree (trees_in b) }
{}

/// Law: a tree whose head is concerned by an edit that changes the live edges is in one of both groves alone, and so is a tree whose
/// head came with the edit.
pub fn trees_of_concern_change()
    ensures new { (edits : List Edit) (edit : Edit) (a b : Grove) (before : IsGrove (graph edits) a) (after : IsGrove (graph (edit ∷ edits)) b)
        (head : Vertex) (tree : List Node) → (class after.live head ≡ Inner → ⊥) → IsTreeOf after.live head tree
        → (after.live ≡ before.live → ⊥) → IsConcerned (edit_edge edit) after.live before.live after.live head → IsAmong tree (trees_in a) → ⊥ }
    ensures came { (edits : List Edit) (edit : Edit) (a b : Grove) (before : IsGrove (graph edits) a) (after : IsGrove (graph (edit ∷ edits)) b)
        (head : Vertex) (tree : List Node) → (IsVertexOf (graph edits) head → ⊥) → IsTreeOf after.live head tree → IsAmong tree (trees_in a) → ⊥ }
    ensures gone { (edits : List Edit) (edit : Edit) (a b : Grove) (before : IsGrove (graph edits) a) (after : IsGrove (graph (edit ∷ edits)) b)
        (head : Vertex) (tree : List Node) → (class before.live head ≡ Inner → ⊥) → IsTreeOf before.live head tree
        → (before.live ≡ after.live → ⊥) → IsConcerned (edit_edge edit) before.live after.live before.live head → IsAmong tree (trees_in b) → ⊥ }
{}

/// Law: any two lists of trees have one list of those that are in exactly one of them. Of the trees of a graph of edits, some with
/// distinct heads that are in no grove but the second have together no more nodes than the touched trees.
pub fn new_trees_are_touched()
    ensures some { (before after : List (List Node)) → (touched : List (List Node)) × AreTouched before after touched }
    ensures one { (before after x y : List (List Node)) → AreTouched before after x → AreTouched before after y → x ≡ y }
    ensures within { (edits : List Edit) (a b : Grove) (after : IsGrove (graph edits) b) (touched : List (List Node)) → AreTouched (trees_in a) (trees_in b) touched
        → (heads : List Vertex) (trees : List (List Node)) → StandOnce heads → AllByRecursion (λ v. class after.live v ≡ Inner → ⊥) heads
        → AreTreesOf after.live heads trees → ((m : List Node) → IsAmong m trees → IsAmong m (trees_in b))
        → ((m : List Node) → IsAmong m trees → IsAmong m (trees_in a) → ⊥) → node_count trees ≤ node_count touched }
{}

/// Law: each of the four walks of an edit is no longer than its size.
pub fn walks_are_within_the_size()
    ensures { (e : Edge) (old new : List Edge) (near : List Vertex) → AreNear e old new near
        → (length (walk old e.source) ≤ near_size old new near) × (length (walk old e.target) ≤ near_size old new near)
        × (length (walk new e.source) ≤ near_size old new near) × (length (walk new e.target) ≤ near_size old new near) }
{}

/// Law: the walk up from a vertex stays in its tree, and is no longer than twice the nodes of the tree.
pub fn a_walk_stays_in_its_tree()
    ensures { (edits : List Edit) (live : List Edge) → AreLive (graph edits) live → (head v : Vertex) (tree : List Node)
        → StandsIn live head v → IsTreeOf live head tree → length (walk live v) ≤ 2 * length tree }
{}

/// Law: an edit leaves the roots of cycles as they were where its target is on no cycle before it and on none after it. Where the
/// target is on a cycle in one of both graphs alone, some vertex is the root of a cycle in one of them alone. It is on cycles in both only
/// where the edit changes no live edge. A vertex that is the root of a cycle in one graph alone is that of the target's cycle there.
pub fn cycles_stay_by_the_target()
    ensures stay { (edits : List Edit) (edit : Edit) (old new : List Edge) → AreLive (graph edits) old → AreLive (graph (edit ∷ edits)) new
        → is_on_cycle old (edit_edge edit).target ≡ false → is_on_cycle new (edit_edge edit).target ≡ false → CyclesStay old new }
    ensures ends { (edits : List Edit) (edit : Edit) (old new : List Edge) → AreLive (graph edits) old → AreLive (graph (edit ∷ edits)) new
        → is_on_cycle old (edit_edge edit).target ≡ true → is_on_cycle new (edit_edge edit).target ≡ false → CyclesStay old new → ⊥ }
    ensures begins { (edits : List Edit) (edit : Edit) (old new : List Edge) → AreLive (graph edits) old → AreLive (graph (edit ∷ edits)) new
        → is_on_cycle old (edit_edge edit).target ≡ false → is_on_cycle new (edit_edge edit).target ≡ true → CyclesStay old new → ⊥ }
    ensures ended { (edits : List Edit) (edit : Edit) (old new : List Edge) → AreLive (graph edits) old → AreLive (graph (edit ∷ edits)) new
        → (r : Vertex) → is_cycle_root old r ≡ true → is_cycle_root new r ≡ false → (is_on_cycle old (edit_edge edit).target ≡ true) × (leads_to old (edit_edge edit).target r ≡ true) }
    ensures begun { (edits : List Edit) (edit : Edit) (old new : List Edge) → AreLive (graph edits) old → AreLive (graph (edit ∷ edits)) new
        → (r : Vertex) → is_cycle_root new r ≡ true → is_cycle_root old r ≡ false → (is_on_cycle new (edit_edge edit).target ≡ true) × (leads_to new (edit_edge edit).target r ≡ true) }
    ensures not_both { (edits : List Edit) (edit : Edit) (old new : List Edge) → AreLive (graph edits) old → AreLive (graph (edit ∷ edits)) new
        → (old ≡ new → ⊥) → is_on_cycle old (edit_edge edit).target ≡ true → is_on_cycle new (edit_edge edit).target ≡ true → ⊥ }
{}

/// Law: every edit has exactly one size.
pub fn every_edit_has_one_size()
    ensures some { (edits : List Edit) (edit : Edit) → (n : ℕ) × IsSize (edit_edge edit) (graph edits) (graph (edit ∷ edits)) n }
    ensures one { (e : Edge) (before after : Graph) (m n : ℕ) → IsSize e before after m → IsSize e before after n → m ≡ n }
{}

/// Law: the vertices near an edit can be told by the live edges alone, since a vertex that came with the edit stands on its walks.
pub fn vertices_that_came_are_near()
    ensures in_graphs { (edits : List Edit) (edit : Edit) (old new : List Edge) → AreLive (graph edits) old → AreLive (graph (edit ∷ edits)) new
        → (near : List Vertex) → AreNear (edit_edge edit) old new near → AreNearIn (edit_edge edit) (graph edits) (graph (edit ∷ edits)) old new near }
    ensures by_edges { (edits : List Edit) (edit : Edit) (old new : List Edge) → AreLive (graph edits) old → AreLive (graph (edit ∷ edits)) new
        → (near : List Vertex) → AreNearIn (edit_edge edit) (graph edits) (graph (edit ∷ edits)) old new near → AreNear (edit_edge edit) old new near }
{}

/// Law: graphs in which each edge has the same state have the same live edges, records and sizes of edits.
pub fn same_graphs_have_the_same_records()
    ensures live { (g h : Graph) (live : List Edge) → IsSame g h → AreLive g live → AreLive h live }
    ensures kept { (g h : Graph) (live : List Edge) (records : Records) → IsSame g h → AreKept g live records → AreKept h live records }
    ensures size { (e : Edge) (g h i j : Graph) (n : ℕ) → IsSame g i → IsSame h j → IsSize e g h n → IsSize e i j n }
{}

/// Law: for every edit there is a list of the vertices near it, one of the heads on its walks, and one of records that a walk down
/// from these makes.
pub fn every_edit_has_a_walk()
    ensures near { (edits : List Edit) (edit : Edit) (old new : List Edge) → AreLive (graph edits) old → AreLive (graph (edit ∷ edits)) new
        → (near : List Vertex) × AreNear (edit_edge edit) old new near }
    ensures heads { (edits : List Edit) (edit : Edit) (old new : List Edge) → AreLive (graph edits) old → AreLive (graph (edit ∷ edits)) new
        → (heads : List Vertex) × AreHeads (edit_edge edit) old new heads }
    ensures made { (edits : List Edit) (edit : Edit) (old new : List Edge) → AreLive (graph edits) old → AreLive (graph (edit ∷ edits)) new
        → (records : Records) (heads : List Vertex) → AreHeads (edit_edge edit) old new heads
        → (made : List (Vertex × Kept)) × MakesTrees (is_on_walks (edit_edge edit) old new) new records heads made }
{}

/// Law: after an edit by which no vertex becomes the root of a cycle or ceases to be one, the records that one walk down from the heads
/// on the walks makes, put in place of those that were kept, are those of the new graph. Each vertex for which one is made is near the
/// edit and has only one, so together they weigh no more than the size of the edit.
pub fn one_walk_renews_the_records()
    ensures kept { (edits : List Edit) (edit : Edit) (old new : List Edge) → AreLive (graph edits) old → AreLive (graph (edit ∷ edits)) new
        → CyclesStay old new → (records : Records) → AreKept (graph edits) old records → (heads : List Vertex) → AreHeads (edit_edge edit) old new heads
        → (made : List (Vertex × Kept)) → MakesTrees (is_on_walks (edit_edge edit) old new) new records heads made → AreKept (graph (edit ∷ edits)) new (put made records) }
    ensures near { (edits : List Edit) (edit : Edit) (old new : List Edge) → AreLive (graph edits) old → AreLive (graph (edit ∷ edits)) new
        → CyclesStay old new → (records : Records) → AreKept (graph edits) old records → (heads : List Vertex) → AreHeads (edit_edge edit) old new heads
        → (made : List (Vertex × Kept)) → MakesTrees (is_on_walks (edit_edge edit) old new) new records heads made
        → (v : Vertex) → stands_in v (names made) ≡ true → IsNear (edit_edge edit) old new v }
    ensures once { (edits : List Edit) (edit : Edit) (old new : List Edge) → AreLive (graph edits) old → AreLive (graph (edit ∷ edits)) new
        → CyclesStay old new → (records : Records) → AreKept (graph edits) old records → (heads : List Vertex) → AreHeads (edit_edge edit) old new heads
        → (made : List (Vertex × Kept)) → MakesTrees (is_on_walks (edit_edge edit) old new) new records heads made → StandOnce (names made) }
    ensures within { (edits : List Edit) (edit : Edit) (old new : List Edge) → AreLive (graph edits) old → AreLive (graph (edit ∷ edits)) new
        → CyclesStay old new → (records : Records) → AreKept (graph edits) old records → (heads : List Vertex) → AreHeads (edit_edge edit) old new heads
        → (made : List (Vertex × Kept)) → MakesTrees (is_on_walks (edit_edge edit) old new) new records heads made
        → (near : List Vertex) → AreNear (edit_edge edit) old new near → sum_by (weight old new) (names made) ≤ near_size old new near }
{}

/// Law: after an edit of which the source of its edge alone sees what becomes of the target, and by which no vertex becomes the root of a
/// cycle or ceases to be one, a walk down may begin at any vertex on the way up from the source: where the type at its top stays, or no
/// vertex sees it, the records that it makes, put in place of those that were kept, are those of the new graph. Whether or not the type
/// stays, each vertex for which one is made is near the edit and has only one, so together they weigh no more than the size of the edit.
pub fn a_short_walk_renews_the_records()
    ensures kept { (edits : List Edit) (edit : Edit) (old new : List Edge) → AreLive (graph edits) old → AreLive (graph (edit ∷ edits)) new
        → CyclesStay old new → (records : Records) → AreKept (graph edits) old records → (way : List Vertex) (top : Vertex) (on : Vertex → Bool) (made : List (Vertex × Kept))
        → (w : IsShortWalk (edit_edge edit) (graph edits) (graph (edit ∷ edits)) old new records way top on made) → TypeStays new records top w.makes_own.forest
        → AreKept (graph (edit ∷ edits)) new (put made records) }
    ensures near { (edits : List Edit) (edit : Edit) (old new : List Edge) → AreLive (graph edits) old → AreLive (graph (edit ∷ edits)) new
        → CyclesStay old new → (records : Records) → AreKept (graph edits) old records → (way : List Vertex) (top : Vertex) (on : Vertex → Bool) (made : List (Vertex × Kept))
        → IsShortWalk (edit_edge edit) (graph edits) (graph (edit ∷ edits)) old new records way top on made
        → (v : Vertex) → stands_in v (names made) ≡ true → IsNear (edit_edge edit) old new v }
    ensures once { (edits : List Edit) (edit : Edit) (old new : List Edge) → AreLive (graph edits) old → AreLive (graph (edit ∷ edits)) new
        → CyclesStay old new → (records : Records) → AreKept (graph edits) old records → (way : List Vertex) (top : Vertex) (on : Vertex → Bool) (made : List (Vertex × Kept))
        → IsShortWalk (edit_edge edit) (graph edits) (graph (edit ∷ edits)) old new records way top on made → StandOnce (names made) }
    ensures within { (edits : List Edit) (edit : Edit) (old new : List Edge) → AreLive (graph edits) old → AreLive (graph (edit ∷ edits)) new
        → CyclesStay old new → (records : Records) → AreKept (graph edits) old records → (way : List Vertex) (top : Vertex) (on : Vertex → Bool) (made : List (Vertex × Kept))
        → IsShortWalk (edit_edge edit) (graph edits) (graph (edit ∷ edits)) old new records way top on made
        → (near : List Vertex) → AreNear (edit_edge edit) old new near → sum_by (weight old new) (names made) ≤ near_size old new near }
{}

/// Law: after such an edit the same is demanded of the vertices on the way up from the source as before.
pub fn what_is_demanded_above_an_edit_stays()
    ensures { (edits : List Edit) (edit : Edit) (old new : List Edge) → AreLive (graph edits) old → AreLive (graph (edit ∷ edits)) new
        → CyclesStay old new → (records : Records) → AreKept (graph edits) old records → SourceAloneSees (edit_edge edit) old new
        → (way : List Vertex) (top : Vertex) → LeadsUp new (edit_edge edit).source way top → (above : List Vertex) (forest : Forest) (d : Demanded) → Stands new above top forest d
        → (sort_of_ctor top.ctor ≡ Exp) ⊎ (sort_of_ctor top.ctor ≡ Top) → kept_demand records top ≡ d }
{}

/// Law: below the vertices where a short walk begins, what is left as it is has its record still.
pub fn what_is_left_near_an_edit_keeps_its_record()
    ensures top { (edits : List Edit) (edit : Edit) (old new : List Edge) → AreLive (graph edits) old → AreLive (graph (edit ∷ edits)) new
        → CyclesStay old new → (records : Records) → AreKept (graph edits) old records → SourceAloneSees (edit_edge edit) old new
        → (way : List Vertex) (top : Vertex) → LeadsUp new (edit_edge edit).source way top
        → (on : Vertex → Bool) → IsJudgedAnew (edit_edge edit) (graph edits) (graph (edit ∷ edits)) way on
        → (between above : List Vertex) (v : Vertex) (forest : Forest) (d : Demanded) → Stands new (between ++ top ∷ above) v forest d → IsVertexOf (graph (edit ∷ edits)) v
        → IsLeft on records v d → records v ≡ Some (kept_of v forest d) }
    ensures target { (edits : List Edit) (edit : Edit) (old new : List Edge) → AreLive (graph edits) old → AreLive (graph (edit ∷ edits)) new
        → CyclesStay old new → (records : Records) → AreKept (graph edits) old records → SourceAloneSees (edit_edge edit) old new
        → (way : List Vertex) (top : Vertex) → LeadsUp new (edit_edge edit).source way top
        → (on : Vertex → Bool) → IsJudgedAnew (edit_edge edit) (graph edits) (graph (edit ∷ edits)) way on
        → (class new (edit_edge edit).target ≡ Inner → ⊥) → (stands_in (edit_edge edit).target ((edit_edge edit).source ∷ way) ≡ true → ⊥) → (IsLeft on records (edit_edge edit).target alone → ⊥)
        → (between above : List Vertex) (v : Vertex) (forest : Forest) (d : Demanded) → Stands new (between ++ (edit_edge edit).target ∷ above) v forest d → IsVertexOf (graph (edit ∷ edits)) v
        → IsLeft on records v d → records v ≡ Some (kept_of v forest d) }
{}

/// Law: after an edit at a position that has several children before it and after it, which leaves the roots of cycles as they were and of
/// which this position alone sees what becomes of the target, a walk down from the target is enough: the records that it makes, put in
/// place of those that were kept, are those of the new graph. Each vertex for which one is made is near the edit and has only one, so
/// together they weigh no more than the size of the edit.
pub fn a_walk_below_a_conflict_renews_the_records()
    ensures kept { (edits : List Edit) (edit : Edit) (old new : List Edge) → AreLive (graph edits) old → AreLive (graph (edit ∷ edits)) new
        → CyclesStay old new → (records : Records) → AreKept (graph edits) old records → (on : Vertex → Bool) (made : List (Vertex × Kept))
        → IsConflictWalk (edit_edge edit) (graph edits) (graph (edit ∷ edits)) old new records on made → AreKept (graph (edit ∷ edits)) new (put made records) }
    ensures near { (edits : List Edit) (edit : Edit) (old new : List Edge) → AreLive (graph edits) old → AreLive (graph (edit ∷ edits)) new
        → CyclesStay old new → (records : Records) → AreKept (graph edits) old records → (on : Vertex → Bool) (made : List (Vertex × Kept))
        → IsConflictWalk (edit_edge edit) (graph edits) (graph (edit ∷ edits)) old new records on made
        → (v : Vertex) → stands_in v (names made) ≡ true → IsNear (edit_edge edit) old new v }
    ensures once { (edits : List Edit) (edit : Edit) (old new : List Edge) → AreLive (graph edits) old → AreLive (graph (edit ∷ edits)) new
        → CyclesStay old new → (records : Records) → AreKept (graph edits) old records → (on : Vertex → Bool) (made : List (Vertex × Kept))
        → IsConflictWalk (edit_edge edit) (graph edits) (graph (edit ∷ edits)) old new records on made → StandOnce (names made) }
    ensures within { (edits : List Edit) (edit : Edit) (old new : List Edge) → AreLive (graph edits) old → AreLive (graph (edit ∷ edits)) new
        → CyclesStay old new → (records : Records) → AreKept (graph edits) old records → (on : Vertex → Bool) (made : List (Vertex × Kept))
        → IsConflictWalk (edit_edge edit) (graph edits) (graph (edit ∷ edits)) old new records on made
        → (near : List Vertex) → AreNear (edit_edge edit) old new near → sum_by (weight old new) (names made) ≤ near_size old new near }
{}

/// Law: an edit leaves the roots of cycles as they were where its target is not above its source before the edit, and no other vertex
/// is above the target before it or after it; and where none is above the target both times.
pub fn cycles_stay_where_the_target_is_apart()
    ensures apart { (edits : List Edit) (edit : Edit) (old new : List Edge) → AreLive (graph edits) old → AreLive (graph (edit ∷ edits)) new
        → stands_in (edit_edge edit).target (walk old (edit_edge edit).source) ≡ false → ((u : Vertex) → above old (edit_edge edit).target ≡ Some u → u ≡ (edit_edge edit).source)
        → ((u : Vertex) → above new (edit_edge edit).target ≡ Some u → u ≡ (edit_edge edit).source) → CyclesStay old new }
    ensures headed { (edits : List Edit) (edit : Edit) (old new : List Edge) → AreLive (graph edits) old → AreLive (graph (edit ∷ edits)) new
        → above old (edit_edge edit).target ≡ None → above new (edit_edge edit).target ≡ None → CyclesStay old new }
{}

/// Law: after any edit the records of all vertices of the trees whose heads the edit concerns, or came with it, put in place of those
/// that were kept, are those of the new graph. A walk makes them by judging each vertex again.
pub fn whole_trees_renew_the_records()
    ensures made { (new : List Edge) (records : Records) (heads : List Vertex) (made : List (Vertex × Kept)) → MakesTrees (λ v. true) new records heads made → AreAllInTrees new heads made }
    ensures kept { (edits : List Edit) (edit : Edit) (old new : List Edge) → AreLive (graph edits) old → AreLive (graph (edit ∷ edits)) new
        → (records : Records) → AreKept (graph edits) old records → (heads : List Vertex) → CoverConcerned (edit_edge edit) (graph edits) (graph (edit ∷ edits)) old new heads
        → (made : List (Vertex × Kept)) → AreAllInTrees new heads made → AreKept (graph (edit ∷ edits)) new (put made records) }
{}

/// Law: the vertices of whole trees, with the edges under each, are together no more than twice the nodes of the trees. As many edges
/// stand under a vertex as live edges lead from it.
pub fn whole_trees_weigh_twice_their_nodes()
    ensures weigh { (edits : List Edit) (live : List Edge) → AreLive (graph edits) live → (heads : List Vertex) (made : List (Vertex × Kept)) (trees : List (List Node))
        → AreAllInTrees live heads made → AreTreesOf live heads trees → sum_by (λ m. 1 + length (edges_under live m.0)) made ≤ 2 * node_count trees }
    ensures leave { (edits : List Edit) (live : List Edge) → AreLive (graph edits) live → (v : Vertex) → length (edges_under live v) ≡ length (leaving v live) }
{}

/// Law: the walk under a vertex goes child by child: past references and what is left as it is nothing is made, and a tree that is judged
/// again adds what is made under it and its own record.
pub fn a_walk_goes_child_by_child()
    ensures none_yet { (on : Vertex → Bool) (records : Records) (given : Position → Demanded) (f : Forest) → AreMadeSoFar on records given f f [] }
    ensures past_multi { (on : Vertex → Bool) (records : Records) (given : Position → Demanded) (f : Forest) (d : Edge) (rest : Forest) (so_far : List (Vertex × Kept))
        → AreMadeSoFar on records given f (multi_ref d rest) so_far → AreMadeSoFar on records given f rest so_far }
    ensures past_cycle { (on : Vertex → Bool) (records : Records) (given : Position → Demanded) (f : Forest) (d : Edge) (rest : Forest) (so_far : List (Vertex × Kept))
        → AreMadeSoFar on records given f (cycle_ref d rest) so_far → AreMadeSoFar on records given f rest so_far }
    ensures past_left { (on : Vertex → Bool) (records : Records) (given : Position → Demanded) (f : Forest) (d : Edge) (below rest : Forest) (so_far : List (Vertex × Kept))
        → AreMadeSoFar on records given f (tree d below rest) so_far → IsLeft on records d.target (given d.position) → AreMadeSoFar on records given f rest so_far }
    ensures past_judged { (on : Vertex → Bool) (records : Records) (given : Position → Demanded) (f : Forest) (d : Edge) (below rest : Forest) (so_far inner : List (Vertex × Kept))
        → AreMadeSoFar on records given f (tree d below rest) so_far → HasToBeJudged on records d.target (given d.position)
        → MakesUnder on records (demanded_at (expression_of d.target below (given d.position)) below) below inner
        → AreMadeSoFar on records given f rest ((so_far ++ inner) ++ (d.target, kept_of d.target below (given d.position)) ∷ []) }
    ensures all { (on : Vertex → Bool) (records : Records) (given : Position → Demanded) (f : Forest) (so_far : List (Vertex × Kept))
        → AreMadeSoFar on records given f none so_far → MakesUnder on records given f so_far }
{}

/// Law: of a vertex that is left as it is the kept record is the record that it has in the new graph.
pub fn what_is_left_keeps_its_record()
    ensures { (edits : List Edit) (edit : Edit) (old new : List Edge) → AreLive (graph edits) old → AreLive (graph (edit ∷ edits)) new
        → CyclesStay old new → (records : Records) → AreKept (graph edits) old records → (above : List Vertex) (v : Vertex) (forest : Forest) (d : Demanded)
        → Stands new above v forest d → IsVertexOf (graph (edit ∷ edits)) v → IsLeft (is_on_walks (edit_edge edit) old new) records v d → records v ≡ Some (kept_of v forest d) }
{}

/// Law: an only child that is a tree gives its position its type, as it is judged there, or as a type, or its name as a pattern; any
/// other position has the unknown type and no name.
pub fn only_children_give()
    ensures expression { (f : Forest) (p : Position) (d : Demanded) (e : Edge) (b : Forest) → count_at f p ≡ 1 → IsTreeIn f e b → is_same_position e.position p ≡ true
        → judged_in f p d ≡ (settled (expression_of e.target b d) (children_types (expression_of e.target b d) b)).typ }
    ensures typ { (f : Forest) (p : Position) (e : Edge) (b : Forest) → count_at f p ≡ 1 → IsTreeIn f e b → is_same_position e.position p ≡ true
        → type_in f p ≡ tree_type e.target.ctor b }
    ensures name { (f : Forest) (p : Position) (e : Edge) (b : Forest) → count_at f p ≡ 1 → IsTreeIn f e b → is_same_position e.position p ≡ true
        → name_in f p ≡ pattern_name e.target.ctor }
    ensures no_expression { (f : Forest) (p : Position) (d : Demanded)
        → ((e : Edge) (b : Forest) → IsTreeIn f e b → is_same_position e.position p ≡ true → count_at f p ≡ 1 → ⊥) → judged_in f p d ≡ Unknown }
    ensures no_typ { (f : Forest) (p : Position)
        → ((e : Edge) (b : Forest) → IsTreeIn f e b → is_same_position e.position p ≡ true → count_at f p ≡ 1 → ⊥) → type_in f p ≡ Unknown }
    ensures no_name { (f : Forest) (p : Position)
        → ((e : Edge) (b : Forest) → IsTreeIn f e b → is_same_position e.position p ≡ true → count_at f p ≡ 1 → ⊥) → name_in f p ≡ None }
{}

/// Law: over tables in which no type and no context stands twice, what is demanded is the same exactly where its numbers are.
pub fn demands_are_told_by_numbers()
    ensures { (types : List Typ) (ctxs : List Context) → type_table.AreDistinct types → ctx_table.AreDistinct ctxs → (a b : Demand)
        → IsDemandOf types ctxs a → IsDemandOf types ctxs b → node.demanded_at types ctxs a ≡ node.demanded_at types ctxs b → a ≡ b }
{}
