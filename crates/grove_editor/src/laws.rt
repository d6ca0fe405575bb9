ghost use Rattle.std.specs.Prelude.{◌≡◌, ℕ, List, [], map};
ghost use Rattle.grove_sorts.specs.declared.version.Version.{Version};
ghost use Rattle.grove_edits.specs.declared.edit.Edit.{Edit};
ghost use Rattle.grove_edits.specs.declared.action.Action.{Action};
ghost use Rattle.grove_edits.specs.Edit.{edit_edge};
ghost use Rattle.grove_edits.specs.Graph.{graph, graph_join, IsSame};
ghost use Rattle.edit_ranges.specs.Lacking.{AreNamesOnce};
ghost use Rattle.edit_text.specs.Whole.{IsTextOf};
ghost use Rattle.user_actions.specs.Plan.{plan};
ghost use Rattle.replica_core.specs.Lists.{lists_of};
ghost use Rattle.grove_editor.specs.CatchingUp.{HasCaughtUp};
ghost use Rattle.grove_editor.specs.EditsText.{edits_text};
ghost use Rattle.grove_editor.specs.State.{State};

/// Law: the text that is written of some edits spells them, so whoever takes it takes these edits.
pub fn a_text_of_edits_is_read()
    ensures { (edits : List Edit) → (version : Version) × IsTextOf (edits_text edits) version edits }
{}

/// Law: an action in a block that opened with no edges does what it does in a block that opens with those of the graph.
pub fn an_action_is_in_a_block_of_its_own()
    ensures { (edits : List Edit) (author : ℕ) (action : Action) → plan (lists_of edits) [] author action ≡ plan (lists_of edits) (map edit_edge edits) author action }
{}

/// Law: where in the join of two editors' graphs no name is given twice, one that caught up with the other has that join. So both have it,
/// whether each caught up with the other as it was, or the second with what the first then was.
pub fn who_caught_up_has_the_join()
    ensures one { (a b after_a : State) → AreNamesOnce (graph_join (graph a.edits) (graph b.edits)) → HasCaughtUp b.edits a after_a
        → IsSame (graph after_a.edits) (graph_join (graph a.edits) (graph b.edits)) }
    ensures both { (a b after_a after_b : State) → AreNamesOnce (graph_join (graph a.edits) (graph b.edits)) → HasCaughtUp b.edits a after_a → HasCaughtUp a.edits b after_b
        → IsSame (graph after_a.edits) (graph after_b.edits) }
    ensures in_turn { (a b after_a after_b : State) → AreNamesOnce (graph_join (graph a.edits) (graph b.edits)) → HasCaughtUp b.edits a after_a → HasCaughtUp after_a.edits b after_b
        → IsSame (graph after_a.edits) (graph after_b.edits) }
{}
