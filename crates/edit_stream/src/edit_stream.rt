ghost use Rattle.std.specs.Prelude.{◌≡◌, [], ◌∷◌, ◌++◌, Some, None, IsOk, ◌↔◌, IfOk, IfErr, OnOk, OnErr, Err};
ghost use Rattle.text_parts.specs.Separated.{Lacks};
ghost use Rattle.edit_text.specs.declared.line_fault.LineFault.{LineFault};
ghost use Rattle.edit_stream.specs.declared.feed_fault.FeedFault.TheVariants.{Malformed};
ghost use Rattle.edit_stream.specs.Stream.{fresh, next_line, HasFed};
ghost use Rattle.edit_stream.specs.Fault.{IsFeedFault, IfMalformed, IfNoMemory, IsFinishFault};

use crate::feed_fault::FeedFault;
use crate::finish_fault::FinishFault;
use crate::reading::read_lines;
use edit_text::LineFault;
use grove_edits::EditList;
use grove_sorts::Version;
use std::alloc::Global;
use std::marker::Model;
use text_parts::{NoMemory, split_at_first};

/// The lines of edits as they come in pieces: their version, the bytes behind the last LF, how many lines were ended, and the first fault.
#[derive(Drop)]
pub struct EditStream {
    alloc: Global,
    version: Version,
    kept: Vec<u8>,
    lines: u64,
    fault: Option<LineFault>,
}

impl Model for EditStream {
    ghost use Rattle.text_parts.specs.Separated.{Lacks};
    ghost use Rattle.edit_stream.specs.Stream.{StreamState};

    ghost Value = { StreamState };

    ghost view = { λ stream. record { version = stream.version; kept = stream.kept.items; lines = stream.lines; fault = stream.fault } };

    ghost invariant = { λ stream. Lacks 10 stream.kept.items };
}

impl EditStream {
    /// A stream of lines of the version that has taken nothing. It takes no memory.
    pub fn new(alloc: Global, version: Version) -> EditStream
        ensures fresh { result ≡ fresh version }
    {
        EditStream {
            alloc,
            version,
            kept: Vec::new(alloc),
            lines: 0,
            fault: None,
        }
    }

    /// Appends the edits of the lines that the piece ends, up to the first bad one. That line is answered again by each later feed, which then appends nothing.
    pub fn feed(&mut self, piece: &[u8], out: &mut EditList) -> Result<(), FeedFault>
        ensures fed { OnOk result (HasFed self.old piece.now self.new out.old out.new) }
        ensures good { OnOk result (self.new.fault ≡ None) }
        ensures fed_up_to_fault { IfErr result (λ fault. IfMalformed fault (HasFed self.old piece.now self.new out.old out.new)) }
        ensures first_fault { IfErr result (IsFeedFault self.new) }
        ensures unchanged { IfErr result (λ fault. IfNoMemory fault ((self.new ≡ self.old) × (out.new ≡ out.old))) }
        ensures again { (fault : LineFault) → self.old.fault ≡ Some fault
            → (result ≡ Err (Malformed (next_line self.old) fault)) × (self.new ≡ self.old) × (out.new ≡ out.old) }
    {
        if let Some(fault) = self.fault {
            let line = self.next_line();
            return Err(FeedFault::Malformed { line, fault });
        }
        match split_at_first(piece, b'\n') {
            Some((end, rest)) => self.end_line(end, rest, out),
            None => {
                self.kept.extend_from_slice(piece)?;
                Ok(())
            }
        }
    }

    // Feeds a piece that has an LF, which `end` stands before and `rest` behind.
    fn end_line(&mut self, end: &[u8], rest: &[u8], out: &mut EditList) -> Result<(), FeedFault>
        requires good { self.old.fault ≡ None }
        requires one_line { Lacks 10 end.now }
        ensures fed { OnOk result (HasFed self.old (end.now ++ 10 ∷ rest.now) self.new out.old out.new) }
        ensures good { OnOk result (self.new.fault ≡ None) }
        ensures fed_up_to_fault { IfErr result (λ fault. IfMalformed fault (HasFed self.old (end.now ++ 10 ∷ rest.now) self.new out.old out.new)) }
        ensures first_fault { IfErr result (IsFeedFault self.new) }
        ensures unchanged { IfErr result (λ fault. IfNoMemory fault ((self.new ≡ self.old) × (out.new ≡ out.old))) }
    {
        let reading = read_lines(self.alloc, self.version, &self.kept, end, rest)?;
        let count = reading.edits.len() as u64;
        append(out, reading.edits)?;
        self.lines = self.lines.saturating_add(count);
        self.kept = reading.kept;
        self.fault = reading.fault;
        match self.fault {
            None => Ok(()),
            Some(fault) => {
                let line = self.next_line();
                Err(FeedFault::Malformed { line, fault })
            }
        }
    }

    // The number of the line behind those that were read.
    fn next_line(&self) -> u64
        ensures { result ≡ next_line self.now }
    {
        self.lines.saturating_add(1)
    }

    /// Whether the whole text was lines of edits, each ended by an LF.
    pub fn finish(self) -> Result<(), FinishFault>
        ensures whole { IsOk result ↔ ((self.fault ≡ None) × (self.kept ≡ [])) }
        ensures first_fault { IfErr result (IsFinishFault self) }
    {
        let line = self.next_line();
        if let Some(fault) = self.fault {
            return Err(FinishFault::Malformed { line, fault });
        }
        if self.kept.is_empty() {
            Ok(())
        } else {
            Err(FinishFault::Rest { line })
        }
    }
}

// Appends edits. They are most often the first ones, and then no edit is copied.
fn append(out: &mut EditList, edits: EditList) -> Result<(), NoMemory>
    ensures appended { OnOk result (out.new ≡ out.old ++ edits) }
    ensures unchanged { OnErr result (out.new ≡ out.old) }
{
    if out.is_empty() {
        *out = edits;
        return Ok(());
    }
    out.extend_from_slice(edits.as_slice())?;
    Ok(())
}
