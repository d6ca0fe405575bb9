ghost use Rattle.std.specs.Prelude.{◌≡◌, IfOk};

use grove_edits::{Bytes, Command, Edit, EditList};
use std::alloc::Global;
use text_parts::NoMemory;

/// What flows to a machine: with its place in its list it makes a command `C`.
pub trait Item<C>: Copy + Send + Sync {
    ghost use Rattle.std.specs.Prelude.{ℕ};

    /// The command of an item with its place in its list, counted from 1.
    ghost command_of: { ℕ → Self → C };

    fn command(self, alloc: Global, place: u64) -> Result<C, NoMemory>
        ensures { IfOk result (λ command. command ≡ command_of place self) };
}

/// An edit comes as a piece with its place in its list.
impl Item<Command> for Edit {
    ghost use Rattle.live_relay.specs.Flow.{take_of};

    ghost command_of = { take_of };

    fn command(self, alloc: Global, place: u64) -> Result<Command, NoMemory> {
        let mut edits = EditList::new(alloc);
        edits.reserve(1)?;
        edits.push(self)?;
        Ok(Command::Take {
            piece: place,
            bytes: Bytes::of(Vec::new(alloc)),
            edits,
        })
    }
}
