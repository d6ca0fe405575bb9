ghost use Rattle.std.specs.Prelude.{◌≡◌, ◌≢◌, ◌++◌, [], IfOk, OnOk, length};
ghost use Rattle.grove_undo.specs.declared.undo_fault.UndoFault.TheVariants.{NoMemory as no_memory};
ghost use Rattle.undo_answers.specs.UndoText.{nothing_line, refused_line, undone_line, fault_text, touched_text, spent_text};

use grove_edits::{Edge, EditList};
use grove_names::write_name;
use grove_undo::UndoFault;
use std::alloc::Global;
use text_parts::{NoMemory, write_number};

/// Appends the line for an author without an action that could be undone. There are no edits.
pub(crate) fn append_nothing(alloc: Global, out: &mut Vec<u8>) -> Result<EditList, NoMemory>
    ensures line { OnOk result (out.new.items ≡ out.old.items ++ nothing_line) }
    ensures edits { IfOk result (λ edits. edits ≡ []) }
{
    out.extend_from_slice(b"nothing\n")?;
    Ok(EditList::new(alloc))
}

/// Appends the line that tells how many edits undo an action, and hands the edits on.
pub(crate) fn append_undone(edits: EditList, out: &mut Vec<u8>) -> Result<EditList, NoMemory>
    ensures line { OnOk result (out.new.items ≡ out.old.items ++ undone_line (length edits)) }
    ensures edits { IfOk result (λ same. same ≡ edits) }
{
    out.extend_from_slice(b"undone ")?;
    write_number(edits.len() as u64, out)?;
    out.push(b'\n')?;
    Ok(edits)
}

/// Appends the line that tells why an action is not undone. There are no edits. Want of memory is no such line: it is answered as it is.
pub(crate) fn append_refused(
    alloc: Global,
    fault: UndoFault,
    out: &mut Vec<u8>,
) -> Result<EditList, NoMemory>
    ensures line { OnOk result (out.new.items ≡ out.old.items ++ refused_line fault) }
    ensures known { OnOk result (fault ≢ no_memory) }
    ensures edits { IfOk result (λ edits. edits ≡ []) }
{
    out.extend_from_slice(b"refused ")?;
    append_fault(fault, out)?;
    out.push(b'\n')?;
    Ok(EditList::new(alloc))
}

fn append_fault(fault: UndoFault, out: &mut Vec<u8>) -> Result<(), NoMemory>
    ensures text { OnOk result (out.new.items ≡ out.old.items ++ fault_text fault) }
    ensures known { OnOk result (fault ≢ no_memory) }
{
    match fault {
        UndoFault::Touched { edge } => {
            append_touched(edge, out)?;
            Ok(())
        }
        UndoFault::NamesSpent { greatest } => {
            append_spent(greatest, out)?;
            Ok(())
        }
        UndoFault::NoMemory => Err(NoMemory),
    }
}

fn append_touched(edge: Edge, out: &mut Vec<u8>) -> Result<(), NoMemory>
    ensures { OnOk result (out.new.items ≡ out.old.items ++ touched_text edge) }
{
    out.extend_from_slice(b"1 touched ")?;
    write_name(edge.name, out)?;
    Ok(())
}

fn append_spent(greatest: u64, out: &mut Vec<u8>) -> Result<(), NoMemory>
    ensures { OnOk result (out.new.items ≡ out.old.items ++ spent_text greatest) }
{
    out.extend_from_slice(b"2 names-spent ")?;
    write_number(greatest, out)?;
    Ok(())
}
