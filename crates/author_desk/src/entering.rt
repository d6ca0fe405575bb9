//! One turn of an author.
ghost use Rattle.std.specs.Prelude.{◌≡◌, ◌≤◌, length, map, IfOk, OnOk, OnErr};
ghost use Rattle.grove_edits.specs.declared.command.Command.TheVariants.{Act};
ghost use Rattle.shared_replica.specs.Passes.{EntersAll};
ghost use Rattle.author_desk.specs.Turns.{EntersFirstLines};

use grove_edits::{Action, Command};
use shared_replica::{Machine, Pass, Shared};
use std::alloc::Global;
use std::sync::Wait;
use text_parts::NoMemory;

fn commands_of(alloc: Global, lines: &[Action]) -> Result<Vec<Command>, NoMemory>
    ensures { IfOk result (λ commands. commands.items ≡ map Act lines.now) }
{
    let mut commands = Vec::with_capacity(alloc, lines.len())?;
    for line in lines.iter() {
        commands.push(Command::Act(*line))?;
    }
    Ok(commands)
}

/// Enters all lines in one turn. Where memory runs out, the first of them are entered, perhaps none.
pub(crate) fn enter<R: Wait, M: Machine<Command = Command>>(
    rt: &R,
    alloc: Global,
    shared: &Shared<M>,
    pass: &mut Pass<M>,
    lines: &[Action],
) -> Result<(), NoMemory>
    requires shared { pass.old.shared ≡ shared.now }
    requires some_line { 1 ≤ length lines.now }
    requires calls { length lines.now ≤ pass.old.calls }
    ensures entered { OnOk result (EntersAll pass.old pass.new (map Act lines.now)) }
    ensures first { OnErr result (EntersFirstLines pass.old pass.new lines.now) }
{
    let commands = commands_of(alloc, lines)?;
    shared.act_all(rt, alloc, pass, commands)?;
    Ok(())
}
