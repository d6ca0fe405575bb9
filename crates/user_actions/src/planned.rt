ghost use Rattle.std.specs.Prelude.{◌≡◌};
ghost use Rattle.user_actions.specs.declared.planned.PlanFault.TheVariants.{Refused, NoMemory as no_memory};

use grove_edits::{ActFault, Answer, EditList};
use text_parts::NoMemory;

/// The edits of an action, in order, and what is answered.
#[derive(Debug, Drop)]
pub struct Plan {
    pub edits: EditList,
    pub answer: Answer,
}

/// Why there is no plan.
#[derive(Clone, Copy, Debug, PartialEq, Eq)]
pub enum PlanFault {
    /// The first fault that applies.
    Refused(ActFault),
    NoMemory,
}

impl From<ActFault> for PlanFault {
    ghost from_gives = { λ fault told. told ≡ Refused fault };

    fn from(fault: ActFault) -> PlanFault {
        PlanFault::Refused(fault)
    }
}

impl From<NoMemory> for PlanFault {
    ghost from_gives = { λ _ told. told ≡ no_memory };

    fn from(_error: NoMemory) -> PlanFault {
        PlanFault::NoMemory
    }
}
