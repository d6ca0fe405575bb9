// The writing of all of some bytes.
ghost use Rattle.std.specs.Prelude.{◌≡◌, ◌<◌, ◌≤◌, ◌-◌, ℕ, length, take, OnOk, OnErr, IsOk};
ghost use Rattle.grove_io.specs.Outside.{Took, HasRisen};

use crate::{Failed, Sink};

/// Writes all the bytes, and goes on after a short write. It takes no memory.
pub fn write_out<K: Sink>(sink: &mut K, bytes: &[u8]) -> Result<(), Failed>
    ensures all { OnOk result (Took (K.taken sink.old) bytes.now (K.taken sink.new)) }
    ensures prefix { OnErr result ((count : ℕ) × (count < length bytes.now)
        × Took (K.taken sink.old) (take count bytes.now) (K.taken sink.new)) }

    ensures cause { OnErr result (HasRisen (K.faults sink.old) (K.faults sink.new)) }
    ensures never_falls { K.faults sink.old ≤ K.faults sink.new }

    ensures sure { (room : ℕ) → K.never_fails sink.old room → length bytes.now ≤ room → IsOk result }
    ensures stays_sure { (room : ℕ) → K.never_fails sink.old room → length bytes.now ≤ room
        → OnOk result (K.never_fails sink.new (room - length bytes.now)) }
    ensures no_fault { (room : ℕ) → K.never_fails sink.old room → length bytes.now ≤ room
        → K.faults sink.new ≡ K.faults sink.old }
{
    let mut written = 0;
    while written < bytes.len() {
        written += sink.write(&bytes[written..])?;
    }
    Ok(())
}

#[cfg(test)]
mod tests {
    use super::*;
    use crate::MemorySink;
    use std::alloc::Global;
    use std::process::Abort;
    use std::test::Fail;

    fn check_front<R: Abort>(rt: &R, sink: &mut MemorySink, taken: &[u8]) {
        assert!(rt; write_out(sink, b"0123456789") == Err(Failed));
        assert!(rt; sink.taken() == taken);
    }

    fn check_fault<R: Abort>(rt: &R, alloc: Global, call: u64, taken: &[u8]) -> Result<(), Fail> {
        let mut sink = MemorySink::new(alloc, 10, 4, [call].to_vec(alloc)?)?;
        check_front(rt, &mut sink, taken);
        Ok(())
    }

    // At four bytes a call, three calls write ten bytes. A fourth call is never made.
    #[test]
    fn keeps_what_was_written_before_a_fault(rt: HostRuntime) -> Result<(), Fail> {
        check_fault(&rt, rt.alloc(), 1, b"")?;
        check_fault(&rt, rt.alloc(), 2, b"0123")?;
        check_fault(&rt, rt.alloc(), 3, b"01234567")
    }

    fn check_room<R: Abort>(rt: &R, sink: &mut MemorySink) {
        assert!(rt; write_out(sink, b"01234567") == Ok(()));
        assert!(rt; write_out(sink, b"89") == Err(Failed));
        assert!(rt; sink.taken() == b"012345678".as_slice());
    }

    #[test]
    fn writes_until_the_room_is_full(rt: HostRuntime) -> Result<(), Fail> {
        let mut sink = MemorySink::new(rt.alloc(), 9, 4, Vec::new(rt.alloc()))?;
        check_room(&rt, &mut sink);
        Ok(())
    }
}
