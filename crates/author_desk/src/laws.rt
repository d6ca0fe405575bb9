ghost use Rattle.std.specs.Prelude.{◌≡◌, List, length};
ghost use Rattle.std.specs.List.{AllByRecursion, flat_map};
ghost use mathlib.Core.List.{IsPrefix};
ghost use Rattle.shared_replica.specs.declared.journal.Entry.{Entry};
ghost use Rattle.shared_replica.specs.Passes.{Call, Passing, EntersInTurns, calls_by, all_calls};
ghost use Rattle.grove_edits.specs.declared.actor.Actor.{Actor};
ghost use Rattle.grove_edits.specs.declared.action.Action.{Action};
ghost use Rattle.grove_edits.specs.declared.edit.Edit.{Edit};
ghost use Rattle.author_desk.specs.Turns.{turns_of, IsTurn, AreLongest};
ghost use Rattle.author_desk.specs.Together.{StandInOrder, AreRunsOf};

use shared_replica::Machine;

/// Law: in every journal that begins with what a pass has seen, the calls of each turn that the pass took stand next to each other
/// and in order, as entries of its actor, and each turn stands behind the one before it. Where these are all calls of the actor,
/// between its turns there are entries of others alone.
pub fn each_turn_stands_together<M: Machine>()
    ensures in_order { (before after : Passing M M.Command M.Effect M.Reply) (turns : List (List (Call M.Command M.Reply))) (journal : List (Entry M M.Command M.Effect M.Reply)) → EntersInTurns before after turns → IsPrefix after.seen journal → StandInOrder before.actor journal turns }
    ensures whole { (actor : Actor) (turns : List (List (Call M.Command M.Reply))) (journal : List (Entry M M.Command M.Effect M.Reply)) → StandInOrder actor journal turns → length (calls_by actor journal) ≡ length (all_calls turns) → AreRunsOf actor journal turns }
{}

/// Law: the turns of an author's lines have each line once and in order, each of them is a run of opening cuts and one line more, and
/// each is as long as it can be: all but the last end at a line that is no opening cut. There are no other such turns.
pub fn turns_have_each_line_once()
    ensures lines { (opening : List Edit) (lines : List Action) → flat_map (λ turn. turn) (turns_of opening lines) ≡ lines }
    ensures runs { (opening : List Edit) (lines : List Action) → AllByRecursion (IsTurn opening) (turns_of opening lines) }
    ensures longest { (opening : List Edit) (lines : List Action) → AreLongest opening (turns_of opening lines) }
    ensures only { (opening : List Edit) (turns : List (List Action)) → AllByRecursion (IsTurn opening) turns → AreLongest opening turns → turns ≡ turns_of opening (flat_map (λ turn. turn) turns) }
{}
