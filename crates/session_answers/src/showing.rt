ghost use Rattle.std.specs.Prelude.{◌≡◌, ◌++◌, ℕ, List, OnOk};
ghost use Rattle.std.specs.List.{zip};
ghost use Rattle.session_report.specs.Report.{IsSection};
ghost use Rattle.session_answers.specs.Running.{AreShown};

use grove_sorts::Ident;
use replica_core::Replica;
use session_report::append_replica_heading;
use std::alloc::Global;
use text_parts::NoMemory;

/// Appends the sections of replicas with these names.
pub(crate) fn append_sections(
    alloc: Global,
    names: &[Ident],
    replicas: &[Replica],
    out: &mut Vec<u8>,
) -> Result<(), NoMemory>
    ensures { OnOk result ((sections : List ℕ) × AreShown (zip names.now replicas.now) sections × (out.new.items ≡ out.old.items ++ sections)) }
{
    for (name, replica) in names.iter().zip(replicas) {
        append_section(alloc, name, replica, out)?;
    }
    Ok(())
}

fn append_section(
    alloc: Global,
    name: &Ident,
    replica: &Replica,
    out: &mut Vec<u8>,
) -> Result<(), NoMemory>
    ensures { OnOk result ((section : List ℕ) × IsSection name.now replica.now.edits section × (out.new.items ≡ out.old.items ++ section)) }
{
    append_replica_heading(name, out)?;
    replica.print(alloc, out)?;
    Ok(())
}
