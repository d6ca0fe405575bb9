ghost use Rattle.std.specs.Prelude.{◌≡◌, ◌<◌, ℕ, true, List};
ghost use Rattle.std.specs.List.{AllByRecursion};
ghost use Rattle.edge_lattice.specs.State.{rank};
ghost use Rattle.grove_names.specs.declared.name.Name.{Name};
ghost use Rattle.grove_edits.specs.declared.edit.Edit.{Edit};
ghost use Rattle.grove_edits.specs.Edit.{edit_edge, edit_kind};
ghost use Rattle.grove_edits.specs.Graph.{Graph, graph, graph_join, state_of, Ascends, HasAll, IsBelow, IsSame};
ghost use Rattle.edit_ranges.specs.declared.name_range.NameRange.{NameRange};
ghost use Rattle.edit_ranges.specs.declared.fault.RangeFault.{RangeFault};
ghost use Rattle.edit_ranges.specs.Ranges.{are_ranges};
ghost use Rattle.edit_ranges.specs.Lacking.{AreNamesOnce, IsKnownByName, lacking};
ghost use Rattle.edit_ranges.specs.Summary.{IsOfOneEdge, IsSummaryOf};
ghost use Rattle.edit_ranges.specs.Text.{IsMalformed, summary_text};

/// Law: a graph has one summary.
pub fn a_graph_has_one_summary()
    ensures one { (g : Graph) (a b : List NameRange) → IsSummaryOf g a → IsSummaryOf g b → a ≡ b }
{}

/// Law: where each edge of a whose name b has stands in b too, the edits of a that b lacks by its summary make the join of both of b. Where
/// in the join no name is given twice, that is so both ways.
pub fn lacking_is_enough()
    ensures enough { (a b : List Edit) (told : List NameRange) → IsSummaryOf (graph b) told → IsKnownByName (graph a) (graph b)
        → IsSame (graph_join (graph b) (graph (lacking told a))) (graph_join (graph a) (graph b)) }
    ensures by_names { (g h : Graph) → AreNamesOnce (graph_join g h) → IsKnownByName g h }
{}

/// Law: where in the join of two graphs no name is given twice, both have the join once each has sent what the other lacks.
pub fn both_have_the_join()
    ensures first { (a b : List Edit) (told_a told_b : List NameRange) → IsSummaryOf (graph a) told_a → IsSummaryOf (graph b) told_b → AreNamesOnce (graph_join (graph a) (graph b))
        → IsSame (graph_join (graph a) (graph (lacking told_a b))) (graph_join (graph a) (graph b)) }
    ensures second { (a b : List Edit) (told_a told_b : List NameRange) → IsSummaryOf (graph a) told_a → IsSummaryOf (graph b) told_b → AreNamesOnce (graph_join (graph a) (graph b))
        → IsSame (graph_join (graph b) (graph (lacking told_b a))) (graph_join (graph a) (graph b)) }
{}

/// Law: whatever a replica told, what it lacks are edits of the list, in order, so they make nothing of it that is not in the join.
pub fn nothing_is_invented()
    ensures edits { (told : List NameRange) (a : List Edit) → HasAll a (lacking told a) }
    ensures in_order { (told : List NameRange) (a : List Edit) → Ascends a → Ascends (lacking told a) }
    ensures below { (told : List NameRange) (a b : List Edit) → IsBelow (graph_join (graph b) (graph (lacking told a))) (graph_join (graph a) (graph b)) }
{}

/// Law: where no two edges of b share a name, each edit that b lacks by its summary raises the state of its edge there: nothing is sent in vain.
pub fn nothing_is_sent_in_vain()
    ensures { (a b : List Edit) (told : List NameRange) → IsSummaryOf (graph b) told → ((name : Name) → IsOfOneEdge (graph b) name)
        → AllByRecursion (λ edit. rank (graph b (edit_edge edit)) < rank (state_of (edit_kind edit))) (lacking told a) }
{}

/// Law: a text is that of one summary at most, or it has one first bad line with one fault, and not both.
pub fn summary_texts_are_exact()
    ensures one_summary { (a b : List NameRange) → are_ranges a ≡ true → are_ranges b ≡ true → summary_text a ≡ summary_text b → a ≡ b }
    ensures summary_or_fault { (text : List ℕ) (a : List NameRange) (line : ℕ) (fault : RangeFault) → are_ranges a ≡ true → text ≡ summary_text a → IsMalformed text line fault → ⊥ }
    ensures one_fault { (text : List ℕ) (m n : ℕ) (f g : RangeFault) → IsMalformed text m f → IsMalformed text n g → (m ≡ n) × (f ≡ g) }
{}
