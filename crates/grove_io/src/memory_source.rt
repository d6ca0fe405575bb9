// Bytes in memory, some of whose reads fail.
ghost use Rattle.std.specs.Prelude.{◌≡◌, ◌<◌, ◌≤◌, length, ◌↔◌, [], IfOk, IsErr, OnErr, Some, Contains, is_ok, if◌then◌else◌};
ghost use Rattle.grove_io.specs.Outside.{counted_once_more};
ghost use Rattle.grove_io.specs.MemorySource.{GivesNext};

use crate::calls::Calls;
use crate::{Failed, Source, SureSource};
use std::marker::Model;

/// Gives its bytes from the first to the last, at most so many a call, and fails at the calls it is told.
#[derive(Drop)]
pub struct MemorySource {
    source: SureSource,
    calls: Calls,
}

impl Model for MemorySource {
    ghost use Rattle.grove_io.specs.MemorySource.{SourceState};

    ghost Value = { SourceState };

    ghost view = { λ s. record {
      left = s.source.left;
      piece = s.source.piece;
      failing = s.calls.failing.items;
      calls = s.calls.made;
      faults = s.calls.faults;
    } };
}

impl MemorySource {
    /// A call gives at most `piece` bytes. The calls whose numbers, from 1, are in `failing` fail.
    pub fn new(bytes: Vec<u8>, piece: usize, failing: Vec<u64>) -> Self
        requires { 1 ≤ piece }
        ensures left { result.left ≡ bytes.items }
        ensures piece { result.piece ≡ piece }
        ensures failing { result.failing ≡ failing.items }
        ensures calls { result.calls ≡ 0 }
        ensures faults { result.faults ≡ 0 }
    {
        MemorySource {
            source: SureSource::new(bytes, piece),
            calls: Calls::new(failing),
        }
    }
}

impl Source for MemorySource {
    ghost left = { λ s. Some s.left };

    ghost faults = { λ s. s.faults };

    ghost never_fails = { λ s. s.failing ≡ [] };

    fn read(&mut self, out: &mut [u8]) -> Result<usize, Failed>
        ensures fails { IsErr result ↔ Contains self.old.failing self.new.calls }
        ensures calls { self.new.calls ≡ counted_once_more self.old.calls }
        ensures faults { self.new.faults ≡
            (if is_ok result then self.old.faults else counted_once_more self.old.faults) }
        ensures never_falls { self.old.faults ≤ self.new.faults }
        ensures next { IfOk result (GivesNext self.old.piece self.old.left self.new.left out.old out.new) }
        ensures at_end { IfOk result (λ count. count ≡ 0 → 0 < length out.old → self.old.left ≡ []) }
        ensures kept { OnErr result (self.new.left ≡ self.old.left) }
        ensures untouched { OnErr result (out.new ≡ out.old) }
        ensures piece { self.new.piece ≡ self.old.piece }
        ensures failing { self.new.failing ≡ self.old.failing }
    {
        if self.calls.next_fails() {
            return Err(Failed);
        }
        self.source.read(out)
    }
}
