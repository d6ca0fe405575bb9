ghost use Rattle.std.specs.Prelude.{◌≡◌, [], ◌∷◌, ◌++◌, OnOk, OnErr, decimal};
ghost use Rattle.std.specs.List.{flat_map};
ghost use Rattle.edit_text.specs.Line.{Extends};
ghost use Rattle.session_report.specs.Entry.{entry_text};
ghost use Rattle.session_report.specs.Report.{block_heading, show_heading, replica_heading, journal_heading, journal_text, journals_text};

use crate::entry_writing::append_entry;
use grove_edits::{Answer, Command};
use grove_sorts::{Ident, write_ident};
use shared_edits::SharedEdits;
use shared_replica::{Journal, Machine};
use text_parts::{NoMemory, write_number};

/// Appends what is written of a block: its number, counted from 1, and the journals of the replicas with these names.
pub fn append_block<M: Machine<Command = Command, Effect = SharedEdits, Reply = Answer>>(
    block: u64,
    names: &[Ident],
    journals: &[Journal<M>],
    out: &mut Vec<u8>,
) -> Result<(), NoMemory>
    ensures appended { OnOk result (out.new.items ≡ out.old.items ++ (block_heading block ++ journals_text names.now journals.now)) }
    ensures unchanged { OnErr result (out.new.items ≡ out.old.items) }
{
    let start = out.len();
    let written = append_journals(block, names, journals, out);
    if written.is_err() {
        out.truncate(start);
    }
    written
}

/// Appends the heading of a show, which are counted from 1.
pub fn append_show_heading(show: u64, out: &mut Vec<u8>) -> Result<(), NoMemory>
    ensures appended { OnOk result (out.new.items ≡ out.old.items ++ show_heading show) }
    ensures unchanged { OnErr result (out.new.items ≡ out.old.items) }
{
    let start = out.len();
    let written = append_number_line(b"show ", show, out);
    if written.is_err() {
        out.truncate(start);
    }
    written
}

/// Appends the heading of a replica's section.
pub fn append_replica_heading(name: &Ident, out: &mut Vec<u8>) -> Result<(), NoMemory>
    ensures appended { OnOk result (out.new.items ≡ out.old.items ++ replica_heading name.now) }
    ensures unchanged { OnErr result (out.new.items ≡ out.old.items) }
{
    let start = out.len();
    let written = append_name_line(name, out);
    if written.is_err() {
        out.truncate(start);
    }
    written
}

// After an error a part may stand, as in the functions below.
fn append_journals<M: Machine<Command = Command, Effect = SharedEdits, Reply = Answer>>(
    block: u64,
    names: &[Ident],
    journals: &[Journal<M>],
    out: &mut Vec<u8>,
) -> Result<(), NoMemory>
    ensures appended { OnOk result (out.new.items ≡ out.old.items ++ (block_heading block ++ journals_text names.now journals.now)) }
    ensures in_part { OnErr result (Extends out.old.items out.new.items) }
{
    append_number_line(b"block ", block, out)?;
    for (name, journal) in names.iter().zip(journals) {
        append_journal(name, journal, out)?;
    }
    Ok(())
}

fn append_journal<M: Machine<Command = Command, Effect = SharedEdits, Reply = Answer>>(
    name: &Ident,
    journal: &Journal<M>,
    out: &mut Vec<u8>,
) -> Result<(), NoMemory>
    ensures appended { OnOk result (out.new.items ≡ out.old.items ++ journal_text name.now journal.now) }
    ensures in_part { OnErr result (Extends out.old.items out.new.items) }
{
    append_journal_line(name, journal.len() as u64, out)?;
    for entry in journal.as_slice() {
        append_entry(entry, out)?;
    }
    Ok(())
}

pub(crate) fn append_number_line(
    word: &[u8],
    number: u64,
    out: &mut Vec<u8>,
) -> Result<(), NoMemory>
    ensures appended { OnOk result (out.new.items ≡ out.old.items ++ (word.now ++ (decimal number ++ 10 ∷ []))) }
    ensures in_part { OnErr result (Extends out.old.items out.new.items) }
{
    append_with_number(word, number, out)?;
    out.push(b'\n')?;
    Ok(())
}

fn append_name_line(name: &Ident, out: &mut Vec<u8>) -> Result<(), NoMemory>
    ensures appended { OnOk result (out.new.items ≡ out.old.items ++ replica_heading name.now) }
    ensures in_part { OnErr result (Extends out.old.items out.new.items) }
{
    out.extend_from_slice(b"replica ")?;
    write_ident(name, out)?;
    out.push(b'\n')?;
    Ok(())
}

fn append_journal_line(name: &Ident, entries: u64, out: &mut Vec<u8>) -> Result<(), NoMemory>
    ensures appended { OnOk result (out.new.items ≡ out.old.items ++ journal_heading name.now entries) }
    ensures in_part { OnErr result (Extends out.old.items out.new.items) }
{
    out.extend_from_slice(b"journal ")?;
    write_ident(name, out)?;
    append_number_line(b" ", entries, out)
}

pub(crate) fn append_with_number(
    word: &[u8],
    number: u64,
    out: &mut Vec<u8>,
) -> Result<(), NoMemory>
    ensures appended { OnOk result (out.new.items ≡ out.old.items ++ (word.now ++ decimal number)) }
    ensures in_part { OnErr result (Extends out.old.items out.new.items) }
{
    out.extend_from_slice(word)?;
    write_number(number, out)?;
    Ok(())
}
