ghost use Rattle.std.specs.Prelude.{◌≡◌, ◌+◌, List, ◌∷◌, ◌++◌, length};
ghost use mathlib.Core.List.{IsPrefix};
ghost use Rattle.shared_replica.specs.declared.journal.Entry.{Entry};
ghost use Rattle.shared_replica.specs.Replays.{machine_after, AreSteps};
ghost use Rattle.shared_replica.specs.Passes.{Call, Passing, EntersInTurns, all_calls};

use crate::machine::Machine;

/// Law: in a journal of steps each entry has the effect and the reply of the step at its place, that is, of the machine that the
/// entries before it lead to.
pub fn an_entry_is_the_step_at_its_place<M: Machine>()
    ensures effect { (first : M) (before behind : List (Entry M M.Command M.Effect M.Reply)) (e : Entry M M.Command M.Effect M.Reply) → AreSteps M.after M.effect M.reply first (before ++ e ∷ behind) → e.effect ≡ M.effect (machine_after M.after first before) e.actor e.command }
    ensures reply { (first : M) (before behind : List (Entry M M.Command M.Effect M.Reply)) (e : Entry M M.Command M.Effect M.Reply) → AreSteps M.after M.effect M.reply first (before ++ e ∷ behind) → e.reply ≡ M.reply (machine_after M.after first before) e.actor e.command }
{}

/// Law: whatever turns a pass took, what it has seen then begins with what it had seen before, it has made the calls of all turns
/// in order, and so many fewer are left. Its actor, its parts and what was joined to it stay.
pub fn turns_extend_what_was_seen<M: Machine>()
    ensures seen { (before after : Passing M M.Command M.Effect M.Reply) (turns : List (List (Call M.Command M.Reply))) → EntersInTurns before after turns → IsPrefix before.seen after.seen }
    ensures made { (before after : Passing M M.Command M.Effect M.Reply) (turns : List (List (Call M.Command M.Reply))) → EntersInTurns before after turns → after.made ≡ before.made ++ all_calls turns }
    ensures left { (before after : Passing M M.Command M.Effect M.Reply) (turns : List (List (Call M.Command M.Reply))) → EntersInTurns before after turns → after.calls + length (all_calls turns) ≡ before.calls }
    ensures same { (before after : Passing M M.Command M.Effect M.Reply) (turns : List (List (Call M.Command M.Reply))) → EntersInTurns before after turns → (after.shared ≡ before.shared) × (after.actor ≡ before.actor) × (after.parts ≡ before.parts) × (after.joined ≡ before.joined) }
{}
