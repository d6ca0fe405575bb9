ghost use Rattle.std.specs.Prelude.{◌≡◌, ◌<◌, ◌^◌, ℕ, true, [], ◌∷◌, List, Some, length, map};
ghost use Rattle.std.specs.List.{AllByRecursion};
ghost use Rattle.grove_names.specs.declared.name.Name.{Name};
ghost use Rattle.grove_sorts.specs.declared.position.Position.{Position};
ghost use Rattle.grove_sorts.specs.declared.ctor.Ctor.{Ctor};
ghost use Rattle.grove_edits.specs.declared.vertex.Vertex.{Vertex};
ghost use Rattle.grove_edits.specs.declared.edge.Edge.{Edge};
ghost use Rattle.grove_edits.specs.declared.edit.Edit.{Edit};
ghost use Rattle.grove_edits.specs.declared.edit.EditKind.TheVariants.{Insert};
ghost use Rattle.grove_edits.specs.declared.action.Place.{Place};
ghost use Rattle.grove_edits.specs.declared.action.Action.{Action};
ghost use Rattle.grove_edits.specs.declared.action.Action.TheVariants.{Become, Delete, Relocate, Restore, Wrap};
ghost use Rattle.grove_edits.specs.declared.act_fault.ActFault.{ActFault};
ghost use Rattle.grove_edits.specs.declared.answer.Answer.{Answer};
ghost use Rattle.grove_edits.specs.declared.answer.Answer.TheVariants.{Made, Moved, Refused};
ghost use Rattle.grove_edits.specs.Vertex.{stands_in};
ghost use Rattle.grove_edits.specs.Edit.{edit_edge, edit_kind};
ghost use Rattle.grove_edits.specs.Graph.{Graph, graph, IsSame};
ghost use Rattle.graph_words.specs.Live.{IsInEdgeOrder, children_of, holds_edge};
ghost use Rattle.graph_words.specs.declared.class.Class.TheVariants.{Cycle};
ghost use Rattle.graph_words.specs.Class.{class};
ghost use Rattle.graph_words.specs.Whole.{AreLive, IsVertexOf};
ghost use Rattle.graph_words.specs.Names.{IsNameOf};
ghost use Rattle.graph_words.specs.States.{well_formed};
ghost use Rattle.user_actions.specs.Lists.{ArePresent};
ghost use Rattle.user_actions.specs.Plan.{IsPlan};
ghost use Rattle.user_actions.specs.After.{graph_after, IsAccepted, vertex_of, targets_at, goes_along, NamesNot};
ghost use Rattle.user_actions.specs.Actions.{place_of, fills_place, made_ctor, moves_vertex};
ghost use Rattle.user_actions.specs.Checks.{wrapping_position};
ghost use Rattle.user_actions.specs.Good.{AreWellFormed, AreOpening, HasLiteralInRange};

/// Law: on each graph that some edits make, every action has a plan. No graph and action have two, and graphs with the same states
/// have the same.
pub fn every_action_has_one_plan()
    ensures some { (g : Graph) (list : List Edit) (opening : List Edge) (author : ℕ) (action : Action)
        → IsSame g (graph list) → IsInEdgeOrder opening → AreOpening g opening → 0 < author → author < 2 ^ 32 → HasLiteralInRange action
        → (edits : List Edit) × (answer : Answer) × IsPlan g opening author action edits answer }
    ensures one { (g : Graph) (opening : List Edge) (author : ℕ) (action : Action) (a b : List Edit) (x y : Answer)
        → IsPlan g opening author action a x → IsPlan g opening author action b y → (a ≡ b) × (x ≡ y) }
    ensures same { (g h : Graph) (opening : List Edge) (author : ℕ) (action : Action) (edits : List Edit) (answer : Answer)
        → IsSame g h → IsPlan g opening author action edits answer → IsPlan h opening author action edits answer }
{}

/// Law: what a plan needs of a graph holds of each that some edits make: its edges are well formed, and the edges that an earlier
/// graph had are still not Absent. Graphs with the same states have the same live edges, as a store after some edits and the graph
/// that the laws below speak of.
pub fn graphs_of_edits_can_be_planned_on()
    ensures well_formed { (g : Graph) (list : List Edit) → IsSame g (graph list) → AreWellFormed g }
    ensures opening { (earlier g : Graph) (edits : List Edit) (opening : List Edge)
        → ArePresent (well_formed earlier) opening → IsSame g (graph_after earlier edits) → AreOpening g opening }
    ensures live { (g h : Graph) (edges : List Edge) → IsSame g h → AreLive g edges → AreLive h edges }
{}

/// Law: an action that is refused makes no edits.
pub fn a_refusal_has_no_edits()
    ensures { (g : Graph) (opening : List Edge) (author : ℕ) (action : Action) (edits : List Edit) (fault : ActFault)
        → IsPlan g opening author action edits (Refused fault) → edits ≡ [] }
{}

/// Law: the edges that an action inserts and the vertex that it makes have names that no vertex of the graph has, and no edge that
/// is not Absent.
pub fn new_names_are_new()
    ensures edges { (g : Graph) (opening : List Edge) (author : ℕ) (action : Action) (edits : List Edit) (answer : Answer)
        → IsPlan g opening author action edits answer
        → AllByRecursion (λ edit. edit_kind edit ≡ Insert → IsNameOf g (edit_edge edit).name → ⊥) edits }
    ensures vertex { (g : Graph) (opening : List Edge) (author : ℕ) (action : Action) (edits : List Edit) (vertex : Name)
        → IsPlan g opening author action edits (Made vertex) → IsNameOf g vertex → ⊥ }
{}

/// Law: an action that constructs, wraps, becomes, relocates or restores leaves exactly one live edge at its place, and one that
/// deletes leaves none.
pub fn a_place_is_filled_or_emptied()
    ensures one { (g : Graph) (opening : List Edge) (author : ℕ) (action : Action) (edits : List Edit) (answer : Answer)
        (place : Place) (v : Vertex) (live : List Edge)
        → IsPlan g opening author action edits answer → IsAccepted answer → fills_place action ≡ true
        → place_of action ≡ Some place → IsVertexOf g v → v.name ≡ place.name
        → AreLive (graph_after g edits) live → length (children_of v place.position live) ≡ 1 }
    ensures none { (g : Graph) (opening : List Edge) (author : ℕ) (edits : List Edit) (answer : Answer)
        (place : Place) (v : Vertex) (live : List Edge)
        → IsPlan g opening author (Delete place) edits answer → IsAccepted answer → IsVertexOf g v → v.name ≡ place.name
        → AreLive (graph_after g edits) live → children_of v place.position live ≡ [] }
{}

/// Law: the one edge of the place leads to the vertex that the action made or moved.
pub fn a_place_has_the_vertex_that_was_meant()
    ensures made { (g : Graph) (opening : List Edge) (author : ℕ) (action : Action) (edits : List Edit)
        (place : Place) (v : Vertex) (live : List Edge) (name : Name) (ctor : Ctor)
        → IsPlan g opening author action edits (Made name) → place_of action ≡ Some place → made_ctor action ≡ Some ctor
        → IsVertexOf g v → v.name ≡ place.name → AreLive (graph_after g edits) live
        → targets_at v place.position live ≡ vertex_of name ctor ∷ [] }
    ensures relocated { (g : Graph) (opening : List Edge) (author : ℕ) (edge : Name) (place : Place) (edits : List Edit) (answer : Answer)
        (v : Vertex) (before after : List Edge) (old : Edge)
        → IsPlan g opening author (Relocate edge place) edits answer → IsAccepted answer → IsVertexOf g v → v.name ≡ place.name
        → AreLive g before → holds_edge old before ≡ true → old.name ≡ edge → AreLive (graph_after g edits) after
        → targets_at v place.position after ≡ old.target ∷ [] }
    ensures restored { (g : Graph) (opening : List Edge) (author : ℕ) (name : Name) (place : Place) (edits : List Edit) (answer : Answer)
        (v moved : Vertex) (live : List Edge)
        → IsPlan g opening author (Restore name place) edits answer → IsAccepted answer → IsVertexOf g v → v.name ≡ place.name
        → IsVertexOf g moved → moved.name ≡ name → AreLive (graph_after g edits) live
        → targets_at v place.position live ≡ moved ∷ [] }
    ensures edge { (g : Graph) (opening : List Edge) (author : ℕ) (action : Action) (edits : List Edit)
        (place : Place) (v : Vertex) (live : List Edge) (name : Name)
        → IsPlan g opening author action edits (Moved name) → place_of action ≡ Some place
        → IsVertexOf g v → v.name ≡ place.name → AreLive (graph_after g edits) live
        → map (λ e. e.name) (children_of v place.position live) ≡ name ∷ [] }
{}

/// Law: what stood at a place that is wrapped stands below the new vertex, in the same order; and where a vertex becomes another, the
/// children that go along stand below it, each at its position.
pub fn children_stand_below_the_new_vertex()
    ensures wrapped { (g : Graph) (opening : List Edge) (author : ℕ) (place : Place) (ctor : Ctor) (edits : List Edit)
        (name : Name) (v : Vertex) (below : Position) (before after : List Edge)
        → IsPlan g opening author (Wrap place ctor) edits (Made name) → IsVertexOf g v → v.name ≡ place.name
        → wrapping_position ctor v place ≡ Some below → AreLive g before → AreLive (graph_after g edits) after
        → targets_at (vertex_of name ctor) below after ≡ targets_at v place.position before }
    ensures carried { (g : Graph) (opening : List Edge) (author : ℕ) (place : Place) (ctor : Ctor) (edits : List Edit)
        (name : Name) (v : Vertex) (before after : List Edge) (replaced child : Edge)
        → IsPlan g opening author (Become place ctor) edits (Made name) → IsVertexOf g v → v.name ≡ place.name
        → AreLive g before → AreLive (graph_after g edits) after
        → holds_edge replaced (children_of v place.position before) ≡ true → holds_edge child before ≡ true
        → goes_along ctor replaced child ≡ true
        → stands_in child.target (targets_at (vertex_of name ctor) child.position after) ≡ true }
{}

/// Law: a place that is the source and position of none of some edits has the live edges that it had.
pub fn other_places_stay()
    ensures { (g : Graph) (edits : List Edit) (before after : List Edge) (v : Vertex) (p : Position)
        → AreLive g before → AreLive (graph_after g edits) after → NamesNot v p edits
        → children_of v p after ≡ children_of v p before }
{}

/// Law: an action that relocates or restores makes no vertex the root of a cycle that was none before.
pub fn moves_make_no_cycle_root()
    ensures { (g : Graph) (opening : List Edge) (author : ℕ) (action : Action) (edits : List Edit) (answer : Answer)
        (before after : List Edge) (v : Vertex)
        → IsPlan g opening author action edits answer → IsAccepted answer → moves_vertex action ≡ true
        → AreLive g before → AreLive (graph_after g edits) after → class after v ≡ Cycle → class before v ≡ Cycle }
{}
