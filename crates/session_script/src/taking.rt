ghost use Rattle.std.specs.Prelude.{◌≡◌, true, Some, None, slice_get, OnOk};
ghost use Rattle.std.specs.List.{list_any};
ghost use Rattle.session_script.specs.Order.{is_same_ident};
ghost use Rattle.session_script.specs.View.{seen, fault_at};
ghost use Rattle.session_script.specs.Reading.{view_of, IsOrdered, AuthorsAfter, ItemsAfter, LinesAfter};

use crate::author::Declared;
use crate::item::{Block, Item};
use crate::line::{Line, SendLine};
use crate::line_list::LineList;
use crate::phase::Phase;
use crate::reading::Reading;
use crate::statement::{SendText, Statement};
use grove_sorts::Ident;
use std::alloc::Global;
use std::mem;
use text_parts::NoMemory;

// Takes a statement that has no fault here.
pub(crate) fn take(reading: &mut Reading, alloc: Global, s: Statement) -> Result<(), NoMemory>
    requires good { fault_at (view_of reading.old) s ≡ None }
    requires ordered { IsOrdered reading.old }
    ensures seen { OnOk result (view_of reading.new ≡ seen (view_of reading.old) s) }
    ensures ordered { OnOk result (IsOrdered reading.new) }
    ensures authors { OnOk result (AuthorsAfter reading.old.replicas reading.old.authors s reading.new.authors) }
    ensures items { OnOk result (ItemsAfter reading.old.replicas reading.old.items reading.old.lines s reading.new.items) }
    ensures lines { OnOk result (LinesAfter reading.old.replicas reading.old.lines s reading.new.lines) }
{
    match s {
        Statement::Session(version) => {
            reading.version = version;
            reading.phase = Phase::Begun;
            Ok(())
        }
        Statement::Replica(replica) => {
            reading.replicas.push(replica)?;
            reading.phase = Phase::Replicas;
            Ok(())
        }
        Statement::Author { author, replica } => take_author(reading, author, &replica),
        Statement::Load { replica, edit } => {
            let replica = number_of(reading.replicas.as_slice(), &replica);
            reading.items.push(Item::Load { replica, edit })?;
            reading.phase = Phase::Items;
            Ok(())
        }
        Statement::Block => {
            reading.blocks += 1;
            reading.phase = Phase::Items;
            Ok(())
        }
        Statement::End => take_end(reading, alloc),
        Statement::Act { author, action } => {
            reading.lines.push(Line::Author { author, action })?;
            Ok(())
        }
        Statement::Send(send) => take_send(reading, &send),
        Statement::Show => {
            reading.items.push(Item::Show)?;
            reading.shows += 1;
            reading.phase = Phase::Items;
            Ok(())
        }
    }
}

fn take_author(reading: &mut Reading, author: u32, replica: &Ident) -> Result<(), NoMemory>
    requires good { fault_at (view_of reading.old) (Statement.Author author replica.now) ≡ None }
    requires ordered { IsOrdered reading.old }
    ensures seen { OnOk result (view_of reading.new ≡ seen (view_of reading.old) (Statement.Author author replica.now)) }
    ensures ordered { OnOk result (IsOrdered reading.new) }
    ensures authors { OnOk result (AuthorsAfter reading.old.replicas reading.old.authors (Statement.Author author replica.now) reading.new.authors) }
    ensures items { OnOk result (ItemsAfter reading.old.replicas reading.old.items reading.old.lines (Statement.Author author replica.now) reading.new.items) }
    ensures lines { OnOk result (LinesAfter reading.old.replicas reading.old.lines (Statement.Author author replica.now) reading.new.lines) }
{
    let replica = number_of(reading.replicas.as_slice(), replica);
    reading.authors.push(Declared { author, replica })?;
    reading.phase = Phase::Authors;
    Ok(())
}

fn take_end(reading: &mut Reading, alloc: Global) -> Result<(), NoMemory>
    requires good { fault_at (view_of reading.old) Statement.End ≡ None }
    requires ordered { IsOrdered reading.old }
    ensures seen { OnOk result (view_of reading.new ≡ seen (view_of reading.old) Statement.End) }
    ensures ordered { OnOk result (IsOrdered reading.new) }
    ensures authors { OnOk result (AuthorsAfter reading.old.replicas reading.old.authors Statement.End reading.new.authors) }
    ensures items { OnOk result (ItemsAfter reading.old.replicas reading.old.items reading.old.lines Statement.End reading.new.items) }
    ensures lines { OnOk result (LinesAfter reading.old.replicas reading.old.lines Statement.End reading.new.lines) }
{
    let lines = mem::replace(&mut reading.lines, LineList::new(alloc));
    reading.items.push(Item::Block(Block { lines }))?;
    reading.ends += 1;
    Ok(())
}

fn take_send(reading: &mut Reading, send: &SendText) -> Result<(), NoMemory>
    requires good { fault_at (view_of reading.old) (Statement.Send send.now) ≡ None }
    requires ordered { IsOrdered reading.old }
    ensures seen { OnOk result (view_of reading.new ≡ seen (view_of reading.old) (Statement.Send send.now)) }
    ensures ordered { OnOk result (IsOrdered reading.new) }
    ensures authors { OnOk result (AuthorsAfter reading.old.replicas reading.old.authors (Statement.Send send.now) reading.new.authors) }
    ensures items { OnOk result (ItemsAfter reading.old.replicas reading.old.items reading.old.lines (Statement.Send send.now) reading.new.items) }
    ensures lines { OnOk result (LinesAfter reading.old.replicas reading.old.lines (Statement.Send send.now) reading.new.lines) }
{
    let from = number_of(reading.replicas.as_slice(), &send.from);
    let to = number_of(reading.replicas.as_slice(), &send.to);
    reading.lines.push(Line::Send(SendLine {
        from,
        to,
        skip: send.skip,
        take: send.take,
        reverse: send.reverse,
        twice: send.twice,
        cut: send.cut,
    }))?;
    reading.sends += 1;
    Ok(())
}

// The number of a replica that is declared.
fn number_of(replicas: &[Ident], replica: &Ident) -> u64
    requires { list_any (is_same_ident replica.now) replicas.now ≡ true }
    ensures { slice_get replicas.now result ≡ Some replica.now }
{
    for (number, declared) in replicas.iter().enumerate() {
        if replica.cmp(declared).is_eq() {
            return number as u64;
        }
    }
    0
}
