ghost use Rattle.std.specs.Prelude.{◌≡◌, IfOk};

use crate::shared_edits::SharedEdits;
use grove_edits::EditList;
use grove_names::Name;
use std::alloc::Global;
use std::collections::BTreeMap;
use text_parts::NoMemory;

// Shorter lists cost no more than what would find them again.
const FEWEST: usize = 8;

/// What cuts of each name deleted last. A name that many edges have can be cut again and again, and each cut deletes them all: lists that
/// are equal to the last one of their name are then the same one.
#[derive(Drop)]
pub struct CutEffects {
    by_name: BTreeMap<Name, SharedEdits>,
}

impl CutEffects {
    pub fn new(alloc: Global) -> CutEffects {
        CutEffects {
            by_name: BTreeMap::new(alloc),
        }
    }

    /// The edits of a cut of a name, shared with the last one of this name where that had the same.
    pub fn of_cut(
        &mut self,
        alloc: Global,
        name: Name,
        edits: EditList,
    ) -> Result<SharedEdits, NoMemory>
        ensures { IfOk result (λ shared. shared ≡ edits) }
    {
        if edits.len() < FEWEST {
            return SharedEdits::new(alloc, edits);
        }
        if let Some(last) = self.by_name.get(&name) {
            if last.are(&edits) {
                return last.share();
            }
        }
        let shared = SharedEdits::new(alloc, edits)?;
        self.by_name.insert(name, shared.share()?)?;
        Ok(shared)
    }
}
