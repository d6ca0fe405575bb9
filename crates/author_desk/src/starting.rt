//! When lines start, and which of them a turn has.
ghost use Rattle.std.specs.Prelude.{◌+◌, ◌^◌, ◌<◌, ◌≤◌, length};
ghost use Rattle.author_desk.specs.Asks.{AllFrom};
ghost use Rattle.author_desk.specs.Cuts.{CanRaise, StartsTurn};

use crate::asked::Asked;
use crate::cuts::{Cuts, raise_edges};
use grove_edits::Action;
use std::thread;

// How often a gate is asked for one call. After that the call starts anyway.
const MOST_ASKS: u32 = 1_000_000;

// Waits until the gate is ready for a call. It holds nothing meanwhile, and other threads may run between two asks.
fn wait_until_ready<G: Asked>(gate: &G, author: u32, call: u64)
    requires { G.may_ask gate.now author call }
{
    for ask in 0..MOST_ASKS {
        if 0 < ask {
            thread::yield_now();
        }
        if gate.is_ready(author, call) {
            return;
        }
    }
}

/// Starts the lines of the first turn, one after the other, and raises the slots that they cut. Answers these lines and those behind
/// them. `first_call` is the number of the first line.
pub(crate) fn start_turn<'a, G: Asked>(
    cuts: &mut Cuts<'_>,
    author: u32,
    first_call: u64,
    lines: &'a [Action],
    gate: &G,
) -> (&'a [Action], &'a [Action])
    requires cuts { CanRaise cuts.old }
    requires some_line { 1 ≤ length lines.now }
    requires numbers { first_call + length lines.now < 2 ^ 64 }
    requires asked { AllFrom (G.may_ask gate.now author) first_call (length lines.now) }
    ensures some_line { 1 ≤ length result.0.now }
    ensures started { StartsTurn cuts.old cuts.new lines.now result.0.now result.1.now }
{
    for (index, line) in lines.iter().enumerate() {
        wait_until_ready(gate, author, first_call + index as u64);
        if !raise_edges(cuts, line) {
            return lines.split_at(index + 1);
        }
    }
    lines.split_at(lines.len())
}
