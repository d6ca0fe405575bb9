ghost use Rattle.std.specs.Prelude.{◌≡◌, ◌≢◌, ◌∷◌, [], ◌++◌, List};
ghost use Rattle.edge_lattice.specs.declared.state.State.TheVariants.{Absent};
ghost use Rattle.grove_edits.specs.declared.edge.Edge.{Edge};
ghost use Rattle.grove_edits.specs.declared.edit.Edit.{Edit};
ghost use Rattle.grove_edits.specs.Graph.{IsSame, IsBelow, IsCanonical, graph, graph_join};
ghost use Rattle.graph_words.specs.States.{Entries, state_in, HasRoom, well_formed};
ghost use Rattle.graph_joins.specs.Merged.{IsMerged, IsRaised, AreRaised};

/// Law: in an empty graph each edge is Absent, and an edge that is not Absent has room.
pub fn an_edge_with_a_state_has_room()
    ensures empty { (e : Edge) → state_in [] e ≡ Absent }
    ensures room { (entries : Entries) (e : Edge) → state_in entries e ≢ Absent → HasRoom entries e }
{}

/// Law: an edit raised where the graph is that of a list of edits makes the graph of the list with that edit appended.
/// So edits raised one after the other, from the empty graph on, make the graph of their list.
pub fn raising_makes_the_graph()
    ensures appended { (edits : List Edit) (edit : Edit) (before after : Entries)
        → IsSame (state_in before) (graph edits) → IsRaised edit before after
        → IsSame (state_in after) (graph (edits ++ edit ∷ [])) }
    ensures joined { (edits : List Edit) (before after : Entries)
        → AreRaised edits before after → IsSame (state_in after) (graph_join (state_in before) (graph edits)) }
    ensures from_empty { (edits : List Edit) (after : Entries)
        → AreRaised edits [] after → IsSame (state_in after) (graph edits) }
{}

/// Law: the graph of a list of edits says nothing of edges that are not well formed, so `in_order` gives its canonical list.
pub fn graphs_of_edits_are_well_formed()
    ensures whole { (edits : List Edit) → IsSame (well_formed (graph edits)) (graph edits) }
    ensures canonical { (edits list : List Edit) (entries : Entries)
        → IsSame (state_in entries) (graph edits) → IsCanonical (well_formed (state_in entries)) list
        → IsCanonical (graph edits) list }
{}

/// Law: merging is associative, commutative and idempotent, and gives the least graph above both; where more is merged, more comes of it.
/// Merged graphs of edits are the graph of both lists, and graphs that are merged in either order have one canonical list.
pub fn merging_is_a_join()
    ensures commutative { (a b ab ba : Entries) → IsMerged a b ab → IsMerged b a ba → IsSame (state_in ab) (state_in ba) }
    ensures associative { (a b c ab bc first last : Entries)
        → IsMerged a b ab → IsMerged ab c first → IsMerged b c bc → IsMerged a bc last
        → IsSame (state_in first) (state_in last) }
    ensures idempotent { (a aa : Entries) → IsMerged a a aa → IsSame (state_in aa) (state_in a) }
    ensures above_first { (a b ab : Entries) → IsMerged a b ab → IsBelow (state_in a) (state_in ab) }
    ensures above_second { (a b ab : Entries) → IsMerged a b ab → IsBelow (state_in b) (state_in ab) }
    ensures least { (a b ab c : Entries) → IsMerged a b ab
        → IsBelow (state_in a) (state_in c) → IsBelow (state_in b) (state_in c) → IsBelow (state_in ab) (state_in c) }
    ensures monotone { (a b ab c d cd : Entries) → IsMerged a b ab → IsMerged c d cd
        → IsBelow (state_in a) (state_in c) → IsBelow (state_in b) (state_in d) → IsBelow (state_in ab) (state_in cd) }
    ensures of_edits { (edits more : List Edit) (a b ab : Entries) → IsMerged a b ab
        → IsSame (state_in a) (graph edits) → IsSame (state_in b) (graph more) → IsSame (state_in ab) (graph (edits ++ more)) }
    ensures one_list { (a b ab ba : Entries) (list again : List Edit) → IsMerged a b ab → IsMerged b a ba
        → IsCanonical (well_formed (state_in ab)) list → IsCanonical (well_formed (state_in ba)) again → list ≡ again }
{}
