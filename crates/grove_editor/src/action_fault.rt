ghost use Rattle.std.specs.Prelude.{◌≡◌};
ghost use Rattle.grove_editor.specs.declared.action_fault.ActionFault.TheVariants.{NoMemory as no_memory};

use text_parts::NoMemory;

/// Why an action was not asked for. Of the faults that apply, the first in this order is told.
#[derive(Clone, Copy, Debug, PartialEq, Eq)]
pub enum ActionFault {
    /// An author has a number from 1 to 4294967295.
    NoAuthor,
    /// The line spells no action.
    Syntax,
    /// Memory ran out.
    NoMemory,
}

impl From<NoMemory> for ActionFault {
    ghost from_gives = { λ _ fault. fault ≡ no_memory };

    fn from(_error: NoMemory) -> ActionFault {
        ActionFault::NoMemory
    }
}
