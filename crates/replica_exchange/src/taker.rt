ghost use Rattle.std.specs.Prelude.{◌≡◌, true, false, ◌↔◌, Some, None, Err, IfOk, IfErr, OnOk};

use edit_stream::{EditStream, FeedFault};
use edit_text::LineFault;
use grove_edits::EditList;
use grove_sorts::Version;
use std::alloc::Global;
use std::marker::Model;

/// Why a piece was not taken.
#[derive(Clone, Copy, Debug, PartialEq, Eq)]
pub enum TakeFault {
    /// The first ended line, counted from 1, that spells no edit, and its first fault.
    Malformed { line: u64, fault: LineFault },
    /// Memory ran out.
    NoMemory,
}

/// Takes pieces of the lines of edits, in version two of the text, as they come. Once memory ran out it takes nothing more.
#[derive(Drop)]
pub struct Taker {
    alloc: Global,
    stream: EditStream,
    is_spent: bool,
}

impl Model for Taker {
    ghost use Rattle.replica_exchange.specs.Taker.{TakerState};

    ghost Value = { TakerState };

    ghost view = { λ taker. record { stream = taker.stream; is_spent = taker.is_spent } };
}

impl Taker {
    ghost use Rattle.edit_text.specs.declared.line_fault.LineFault.{LineFault};
    ghost use Rattle.grove_sorts.specs.declared.version.Version.TheVariants.{Two};
    ghost use Rattle.edit_stream.specs.Stream.{fresh, next_line, Feeds};
    ghost use Rattle.replica_exchange.specs.declared.taker.TakeFault.TheVariants.{Malformed, NoMemory};
    ghost use Rattle.replica_exchange.specs.Taker.{Reaches, IsTakeFault, IfMalformed, IfNoMemory};

    /// A receiver that has taken nothing. It takes no memory.
    pub fn new(alloc: Global) -> Taker
        ensures fresh { result.stream ≡ fresh Two }
        ensures ready { result.is_spent ≡ false }
    {
        Taker {
            alloc,
            stream: EditStream::new(alloc, Version::Two),
            is_spent: false,
        }
    }

    /// The edits of the lines that the piece ends. The first bad line of all pieces is answered where an LF ends it, and again by each later
    /// call. Want of memory leaves the stream as it was, and is answered by each later call.
    pub fn take(&mut self, piece: &[u8]) -> Result<EditList, TakeFault>
        ensures edits { IfOk result (λ edits. Feeds self.old.stream piece.now edits self.new.stream) }
        ensures good { OnOk result (self.new.stream.fault ≡ None) }
        ensures fed_up_to_fault { IfErr result (λ fault. IfMalformed fault (Reaches self.old.stream piece.now self.new.stream)) }
        ensures first_fault { IfErr result (IsTakeFault self.new.stream) }
        ensures unchanged { IfErr result (λ fault. IfNoMemory fault (self.new.stream ≡ self.old.stream)) }
        ensures again { (fault : LineFault) → self.old.is_spent ≡ false → self.old.stream.fault ≡ Some fault
            → (result ≡ Err (Malformed (next_line self.old.stream) fault)) × (self.new ≡ self.old) }
        ensures spent { self.old.is_spent ≡ true → (result ≡ Err NoMemory) × (self.new ≡ self.old) }
        ensures is_spent { (self.new.is_spent ≡ true) ↔ (result ≡ Err NoMemory) }
    {
        if self.is_spent {
            return Err(TakeFault::NoMemory);
        }
        let mut edits = EditList::new(self.alloc);
        match self.stream.feed(piece, &mut edits) {
            Ok(()) => Ok(edits),
            Err(FeedFault::Malformed { line, fault }) => Err(TakeFault::Malformed { line, fault }),
            Err(FeedFault::NoMemory) => {
                self.is_spent = true;
                Err(TakeFault::NoMemory)
            }
        }
    }
}
