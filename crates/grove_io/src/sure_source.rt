// Bytes in memory, whose reads all succeed.
ghost use Rattle.std.specs.Prelude.{◌≡◌, ◌<◌, ◌≤◌, [], length, IfOk, IsOk, Some};
ghost use Rattle.grove_io.specs.MemorySource.{GivesNext};

use crate::{Failed, Source};
use std::marker::Model;

/// Gives its bytes from the first to the last, at most so many a call. It never fails.
#[derive(Drop)]
pub struct SureSource {
    bytes: Vec<u8>,
    at: usize,
    piece: usize,
}

impl Model for SureSource {
    ghost use Rattle.std.specs.Prelude.{◌≤◌, length, drop};
    ghost use Rattle.grove_io.specs.MemorySource.{SureState};

    ghost Value = { SureState };

    ghost view = { λ s. record { left = drop s.at s.bytes.items; piece = s.piece } };

    ghost invariant = { λ s. (s.at ≤ length s.bytes.items) × (1 ≤ s.piece) };
}

impl SureSource {
    /// A call gives at most `piece` bytes.
    pub fn new(bytes: Vec<u8>, piece: usize) -> Self
        requires { 1 ≤ piece }
        ensures left { result.left ≡ bytes.items }
        ensures piece { result.piece ≡ piece }
    {
        SureSource {
            bytes,
            at: 0,
            piece,
        }
    }
}

impl Source for SureSource {
    ghost left = { λ s. Some s.left };

    ghost faults = { λ _. 0 };

    ghost never_fails = { λ _. Unit {0} };

    fn read(&mut self, out: &mut [u8]) -> Result<usize, Failed>
        ensures always { IsOk result }
        ensures next { IfOk result (GivesNext self.old.piece self.old.left self.new.left out.old out.new) }
        ensures at_end { IfOk result (λ count. count ≡ 0 → 0 < length out.old → self.old.left ≡ []) }
        ensures piece { self.new.piece ≡ self.old.piece }
    {
        let rest = &self.bytes[self.at..];
        let count = self.piece.min(out.len().min(rest.len()));
        out[..count].copy_from_slice(&rest[..count]);
        self.at += count;
        Ok(count)
    }
}
