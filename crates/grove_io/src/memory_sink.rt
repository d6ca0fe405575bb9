// A sink in memory, some of whose writes fail.
ghost use Rattle.std.specs.Prelude.{◌≡◌, ◌<◌, ◌≤◌, ◌+◌, ◌↔◌, ◌⊎◌, [], length, IfOk, IsErr, OnErr, Some, Contains, is_ok, if◌then◌else◌};
ghost use Rattle.grove_io.specs.Outside.{counted_once_more};
ghost use Rattle.grove_io.specs.MemorySink.{LacksRoom, TakesFront};

use crate::calls::Calls;
use crate::{Failed, NoMemory, Sink};
use std::alloc::Global;
use std::marker::Model;

/// Keeps the bytes that it takes, at most so many a call, until its room is full. It fails at the calls it
/// is told, and at a write for which no room is left.
#[derive(Drop)]
pub struct MemorySink {
    bytes: Vec<u8>,
    room: usize,
    piece: usize,
    calls: Calls,
}

impl Model for MemorySink {
    ghost use Rattle.std.specs.Prelude.{◌≤◌, length};
    ghost use Rattle.std.specs.Vec.{vec_capacity};
    ghost use Rattle.grove_io.specs.MemorySink.{SinkState};

    ghost Value = { SinkState };

    ghost view = { λ s. record {
      taken = s.bytes.items;
      room = s.room;
      piece = s.piece;
      failing = s.calls.failing.items;
      calls = s.calls.made;
      faults = s.calls.faults;
    } };

    ghost invariant = { λ s. (length s.bytes.items ≤ s.room) × (s.room ≤ vec_capacity s.bytes) × (1 ≤ s.piece) };
}

impl MemorySink {
    /// It takes at most `room` bytes, at most `piece` a call. The calls whose numbers, from 1, are in `failing`
    /// fail. The room is taken from memory here, and no write takes any.
    pub fn new(
        alloc: Global,
        room: usize,
        piece: usize,
        failing: Vec<u64>,
    ) -> Result<Self, NoMemory>
        requires { 1 ≤ piece }
        ensures taken { IfOk result (λ sink. sink.taken ≡ []) }
        ensures room { IfOk result (λ sink. sink.room ≡ room) }
        ensures piece { IfOk result (λ sink. sink.piece ≡ piece) }
        ensures failing { IfOk result (λ sink. sink.failing ≡ failing.items) }
        ensures calls { IfOk result (λ sink. sink.calls ≡ 0) }
        ensures faults { IfOk result (λ sink. sink.faults ≡ 0) }
    {
        let bytes = Vec::with_capacity(alloc, room)?;
        Ok(MemorySink {
            bytes,
            room,
            piece,
            calls: Calls::new(failing),
        })
    }

    /// The bytes taken.
    pub fn taken(&self) -> &[u8]
        ensures { result.now ≡ self.now.taken }
    {
        &self.bytes
    }
}

impl Sink for MemorySink {
    ghost taken = { λ s. Some s.taken };

    ghost faults = { λ s. s.faults };

    ghost never_fails = { λ s room. (s.failing ≡ []) × (length s.taken + room ≤ s.room) };

    fn write(&mut self, piece: &[u8]) -> Result<usize, Failed>
        ensures fails { IsErr result ↔ (Contains self.old.failing self.new.calls ⊎ LacksRoom self.old piece.now) }
        ensures calls { self.new.calls ≡ counted_once_more self.old.calls }
        ensures faults { self.new.faults ≡
            (if is_ok result then self.old.faults else counted_once_more self.old.faults) }
        ensures never_falls { self.old.faults ≤ self.new.faults }
        ensures front { IfOk result (TakesFront self.old self.new piece.now) }
        ensures progress { IfOk result (λ count. 0 < length piece.now → 0 < count) }
        ensures kept { OnErr result (self.new.taken ≡ self.old.taken) }
        ensures room { self.new.room ≡ self.old.room }
        ensures piece { self.new.piece ≡ self.old.piece }
        ensures failing { self.new.failing ≡ self.old.failing }
    {
        if self.calls.next_fails() {
            return Err(Failed);
        }
        let room = self.room - self.bytes.len();
        if room == 0 && !piece.is_empty() {
            self.calls.count_fault();
            return Err(Failed);
        }
        let count = self.piece.min(piece.len().min(room));
        self.bytes.extend_from_slice(&piece[..count]).unwrap();
        Ok(count)
    }
}
