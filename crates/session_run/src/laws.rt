ghost use Rattle.std.specs.Prelude.{◌≡◌, ◌+◌, ◌^◌, ◌<◌, ◌≤◌, List, ◌∷◌, ◌++◌, length};
ghost use Rattle.std.specs.List.{AllByRecursion, sum_by};
ghost use Rattle.grove_edits.specs.declared.actor.Actor.{Actor};
ghost use Rattle.grove_edits.specs.declared.command.Command.{Command};
ghost use Rattle.shared_replica.specs.declared.journal.Entry.{Entry};
ghost use Rattle.session_script.specs.declared.item.Block.{Block};
ghost use Rattle.session_script.specs.declared.item.Item.{Item};
ghost use Rattle.session_script.specs.declared.item.Item.TheVariants.{Block as block_item};
ghost use Rattle.session_script.specs.declared.session.Session.{Session};
ghost use Rattle.session_script.specs.Session.{send_count, AllDiffer, author_numbers, IsSession};
ghost use Rattle.session_run.specs.Calls.{Stage, AreCalls, MayCall, commands_by, sends_of};
ghost use Rattle.session_run.specs.Run.{IsPlaced, CanRun};

use grove_edits::Command;
use shared_replica::Machine;

/// Law: the journals of a block at a replica may have their entries in different orders, but each actor's commands are the same.
pub fn calls_differ_in_order_alone<M: Machine<Command = Command>>()
    ensures { (stage : Stage) (journal other : List (Entry M Command M.Effect M.Reply)) (actor : Actor) → AllByRecursion (λ send. 1 ≤ send.cut) (sends_of stage.lines)
        → AreCalls stage journal → AreCalls stage other → MayCall stage actor → commands_by actor journal ≡ commands_by actor other }
{}

/// Law: each block of a session can be run, with the number of its first `send` line in the session.
pub fn blocks_of_sessions_can_run()
    ensures authors { (session : Session) → IsSession session → AllByRecursion (IsPlaced (length session.replicas)) session.authors × AllDiffer (author_numbers session.authors) }
    ensures lines { (session : Session) (before after : List Item) (block : Block) → IsSession session → session.items ≡ before ++ block_item block ∷ after
        → AllByRecursion (CanRun session.authors (length session.replicas)) block.lines }
    ensures numbers { (session : Session) (before after : List Item) (block : Block) → IsSession session → session.items ≡ before ++ block_item block ∷ after
        → sum_by send_count before + 1 + length (sends_of block.lines) < 2 ^ 32 }
{}
