ghost use Rattle.std.specs.Prelude.{◌≡◌, ◌+◌, ◌^◌, ◌<◌, ◌≤◌, ◌++◌, length, map, OnOk, OnErr};
ghost use Rattle.grove_edits.specs.declared.actor.Actor.TheVariants.{Author};
ghost use Rattle.grove_edits.specs.declared.command.Command.TheVariants.{Act};
ghost use Rattle.author_desk.specs.Asks.{AllFrom};
ghost use Rattle.author_desk.specs.Lines.{slots_cut};
ghost use Rattle.author_desk.specs.Turns.{commands_of, EntersLines, EntersFirstLines};
ghost use Rattle.author_desk.specs.Cuts.{opening_edits, CanRaise, Raises, RaisesFirst, KeepsSeat};

use crate::asked::Asked;
use crate::cuts::Cuts;
use crate::entering::enter;
use crate::starting::start_turn;
use grove_edits::{Action, Command};
use shared_replica::{Machine, Pass, Shared};
use std::alloc::Global;
use std::sync::Wait;
use text_parts::NoMemory;

/// Enters the lines of an author, each once and in order. The gate is asked before each line starts, with the author and the number
/// of the line in the whole session, at most 1,000,000 times until it is ready. `first_call` is the number of the first line, and the
/// gate is asked for no other call: it need not be one that may be asked for others.
///
/// A line that cuts opening edges raises the slots of these edges as it starts, and waits, without memory or a turn. The next other
/// line enters those that wait and then itself in one turn, and so does the end those that are left. Every other line takes a
/// turn of its own, a cut that names no opening edge too.
pub fn run_lines<R: Wait, M: Machine<Command = Command>, G: Asked>(
    rt: &R,
    alloc: Global,
    shared: &Shared<M>,
    pass: &mut Pass<M>,
    cuts: &mut Cuts<'_>,
    author: u32,
    first_call: u64,
    lines: &[Action],
    gate: &G,
) -> Result<(), NoMemory>
    requires shared { pass.old.shared ≡ shared.now }
    requires author { pass.old.actor ≡ Author author }
    requires calls { length lines.now ≤ pass.old.calls }
    requires cuts { CanRaise cuts.old }
    requires numbers { first_call + length lines.now < 2 ^ 64 }
    requires asked { AllFrom (G.may_ask gate.now author) first_call (length lines.now) }
    ensures entered { OnOk result (EntersLines pass.old pass.new (opening_edits cuts.old) lines.now) }
    ensures made { OnOk result (commands_of pass.new.made ≡ commands_of pass.old.made ++ map Act lines.now) }
    ensures left { OnOk result (pass.new.calls + length lines.now ≡ pass.old.calls) }
    ensures raised { OnOk result (Raises cuts.old cuts.new (slots_cut (opening_edits cuts.old) lines.now)) }

    // Where memory ran out, the lines behind those entered are left, and some of them may have raised their slots.
    ensures entered_first { OnErr result (EntersFirstLines pass.old pass.new lines.now) }
    ensures raised_first { OnErr result (RaisesFirst cuts.old cuts.new lines.now) }

    ensures kept { KeepsSeat cuts.old cuts.new }
    ensures same { (pass.new.shared ≡ pass.old.shared) × (pass.new.actor ≡ pass.old.actor) × (pass.new.parts ≡ pass.old.parts) × (pass.new.joined ≡ pass.old.joined) }
{
    let mut left = lines;
    let mut call = first_call;
    while !left.is_empty() {
        let (turn, behind) = start_turn(cuts, author, call, left, gate);
        enter(rt, alloc, shared, pass, turn)?;
        left = behind;
        call += turn.len() as u64;
    }
    Ok(())
}
