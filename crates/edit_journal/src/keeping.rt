// The edits of a text, kept in a log on a disk in memory.
ghost use Rattle.std.specs.Prelude.{◌≡◌, ◌≤◌, false, List, [], length, map, IfOk};
ghost use Rattle.grove_edits.specs.declared.edit.Edit.{Edit};
ghost use Rattle.edit_text.specs.Text.{line_of, text_of};
ghost use Rattle.edit_journal.specs.LogFile.{IsLog, IsLogOf, IsLogFile, at_rest};
ghost use Rattle.edit_journal.specs.Keeping.{most_kept};

use crate::edit_log::EditLog;
use crate::fault::{AppendFault, OpenFault};
use crate::memory_disk::MemoryDisk;
use grove_edits::{Edit, EditList};
use std::alloc::Global;
use text_parts::NoMemory;

/// Keeps the edits of a text of at most 16,777,216 bytes: appends them in their order to a log on an empty disk. Edits of so short a
/// text make a file that is no longer than a log may be.
pub fn keep(alloc: Global, disk: MemoryDisk, edits: &[Edit]) -> Result<MemoryDisk, NoMemory>
    requires empty { disk ≡ [] }
    requires short { length (text_of edits.now) ≤ most_kept }
    ensures kept { IfOk result (IsLogOf edits.now) }
{
    let (mut log, _) = open_in_memory(alloc, disk)?;
    match log.append_all(edits) {
        Ok(()) => Ok(log.close()),
        Err(AppendFault::NoMemory) => Err(NoMemory),
        Err(AppendFault::Stopped) => unreachable!(),
        Err(AppendFault::Full { .. }) => unreachable!(),
        Err(AppendFault::Failed) => unreachable!(),
    }
}

/// Opens a log on a disk in memory. Its calls do not fail, and a log is not damaged: only memory may be wanting.
pub fn open_in_memory(
    alloc: Global,
    disk: MemoryDisk,
) -> Result<(EditLog<MemoryDisk>, EditList), NoMemory>
    requires { IsLogFile disk }
    ensures edits { IfOk result (λ opened. IsLog disk opened.1) }
    ensures found { IfOk result (λ opened. (edits : List Edit) → IsLog disk edits → edits ≡ opened.1) }
    ensures log { IfOk result (λ opened. IsLogOf opened.1 opened.0.disk) }
    ensures ends { IfOk result (λ opened. opened.0.disk ≡ at_rest (map line_of opened.1)) }
    ensures runs { IfOk result (λ opened. opened.0.stopped ≡ false) }
{
    match EditLog::open(alloc, disk) {
        Ok(opened) => Ok(opened),
        Err(OpenFault::NoMemory { .. }) => Err(NoMemory),
        Err(OpenFault::Failed { .. } | OpenFault::TooLong { .. } | OpenFault::Damaged { .. }) => {
            unreachable!()
        }
    }
}
