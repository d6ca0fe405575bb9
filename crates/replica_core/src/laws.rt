ghost use Rattle.std.specs.Prelude.{◌≡◌, ◌+◌, ◌*◌, ◌++◌, ◌<◌, ◌^◌, ℕ, List, [], ◌∷◌};
ghost use Rattle.grove_edits.specs.declared.vertex.Vertex.{Vertex};
ghost use Rattle.grove_edits.specs.declared.edge.Edge.{Edge};
ghost use Rattle.grove_edits.specs.declared.edit.Edit.{Edit};
ghost use Rattle.grove_edits.specs.declared.action.Action.{Action};
ghost use Rattle.grove_edits.specs.declared.actor.Actor.{Actor};
ghost use Rattle.grove_edits.specs.declared.actor.Actor.TheVariants.{Author};
ghost use Rattle.grove_edits.specs.declared.answer.Answer.{Answer};
ghost use Rattle.grove_edits.specs.declared.command.Command.{Command};
ghost use Rattle.grove_edits.specs.declared.command.Command.TheVariants.{Act};
ghost use Rattle.grove_edits.specs.Graph.{graph, graph_join, IsSame, IsCanonical, HasSameEdits};
ghost use Rattle.grove_edits.specs.Edit.{edit_edge};
ghost use Rattle.graph_words.specs.Whole.{AreLive};
ghost use Rattle.kept_records.specs.Kept.{AreKept};
ghost use Rattle.kept_records.specs.Size.{IsSize};
ghost use Rattle.mark_incremental.specs.Standing.{KeptMarks, StandFor, records_in};
ghost use Rattle.shared_replica.specs.declared.journal.Entry.{Entry};
ghost use Rattle.shared_replica.specs.Replays.{machine_after, AreSteps};
ghost use Rattle.user_actions.specs.Good.{HasLiteralInRange};
ghost use Rattle.user_actions.specs.Lists.{AreListsOf};
ghost use Rattle.user_actions.specs.Plan.{IsPlan};
ghost use Rattle.replica_core.specs.Content.{Content, IsContent, no_edits, with_taken, with_block};
ghost use Rattle.replica_core.specs.Lists.{lists_of};
ghost use Rattle.replica_core.specs.Step.{after, effect, reply};
ghost use Rattle.replica_core.specs.Calls.{Call, after_calls, edits_of_calls, edits_of_entries};
ghost use Rattle.replica_core.specs.Cost.{edit_cost, edits_cost, calls_cost};

/// Law: what holds of each replica holds before any edit, and stays as edits are taken and blocks open.
pub fn what_holds_of_a_replica_stays()
    ensures empty { IsContent no_edits }
    ensures taken { (content : Content) (edits : List Edit) → IsContent content → IsContent (with_taken edits content) }
    ensures opened { (content : Content) → IsContent content → IsContent (with_block content) }
{}

/// Law: taking edits joins their graph to the graph, and edits are taken in turn.
pub fn edits_that_are_taken_are_joined()
    ensures joined { (content : Content) (edits : List Edit) → IsSame (graph (with_taken edits content).edits) (graph_join (graph content.edits) (graph edits)) }
    ensures in_turn { (content : Content) (a b : List Edit) → with_taken (a ++ b) content ≡ with_taken b (with_taken a content) }
{}

/// Law: after whatever calls, from the empty replica on, its edits are the canonical list of all edits that it took. So replicas
/// that took the same edits, in any order and with any repeats, have the same list, and print the same.
pub fn replicas_converge()
    ensures canonical { (calls : List Call) → IsCanonical (graph (edits_of_calls calls)) (after_calls calls no_edits).edits }
    ensures same { (a b : List Call) → HasSameEdits (edits_of_calls a) (edits_of_calls b) → (after_calls a no_edits).edits ≡ (after_calls b no_edits).edits }
{}

/// Law: the step of an author's action is its plan on the graph, in the block that opened so. An action of the program has literals
/// in range.
pub fn an_authors_step_is_the_plan()
    ensures plan { (content : Content) (author : ℕ) (action : Action) → IsContent content → 0 < author → author < 2 ^ 32 → HasLiteralInRange action
        → IsPlan (graph content.edits) content.opening author action (effect content (Author author) (Act action)) (reply content (Author author) (Act action)) }
    ensures lists { (content : Content) → IsContent content → AreListsOf (graph content.edits) (lists_of content.edits) }
{}

/// Law: the steps of a journal take its edits, and leave the opening edges.
pub fn a_journal_takes_its_edits()
    ensures { (first : Content) (entries : List (Entry Content Command (List Edit) Answer)) → AreSteps after effect reply first entries
        → machine_after after first entries ≡ with_taken (edits_of_entries entries) first }
{}

/// Law: after whatever calls, from the empty replica on, marks that stand for its graph keep of each vertex what marking the graph of all
/// edits that it took says, and nothing of others. So replicas that took the same edits, in any order and with any repeats, keep the same
/// records, each read by its own tables.
pub fn what_is_kept_follows_from_the_edits()
    ensures kept { (calls : List Call) (marks : KeptMarks) → StandFor (graph (after_calls calls no_edits).edits) marks
        → (live : List Edge) → AreLive (graph (edits_of_calls calls)) live → AreKept (graph (edits_of_calls calls)) live (records_in marks) }
    ensures one { (content : Content) (a b : KeptMarks) → StandFor (graph content.edits) a → StandFor (graph content.edits) b → (v : Vertex) → records_in a v ≡ records_in b v }
    ensures same { (a b : List Call) → HasSameEdits (edits_of_calls a) (edits_of_calls b) → (m n : KeptMarks)
        → StandFor (graph (after_calls a no_edits).edits) m → StandFor (graph (after_calls b no_edits).edits) n → (v : Vertex) → records_in m v ≡ records_in n v }
{}

/// Law: an edit costs 64 for each unit of its size, and 64 more. A step that has no edits costs nothing. Edits in turn cost the sum, and so
/// do calls: as much as all their edits in turn, since a block that opens costs nothing.
pub fn an_edit_costs_by_its_size()
    ensures edit { (content : Content) (edit : Edit) (size : ℕ) → IsSize (edit_edge edit) (graph content.edits) (graph_join (graph content.edits) (graph (edit ∷ []))) size
        → edit_cost content edit ≡ 64 * size + 64 }
    ensures nothing { (content : Content) (actor : Actor) (command : Command) → effect content actor command ≡ [] → edits_cost content (effect content actor command) ≡ 0 }
    ensures in_turn { (content : Content) (a b : List Edit) → edits_cost content (a ++ b) ≡ edits_cost content a + edits_cost (with_taken a content) b }
    ensures calls { (content : Content) (calls : List Call) → calls_cost content calls ≡ edits_cost content (edits_of_calls calls) }
{}
