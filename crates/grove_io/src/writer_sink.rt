// A sink over a writer of std.
ghost use Rattle.std.specs.Prelude.{◌≡◌, ◌<◌, ◌≤◌, None, length, IfOk, OnErr, IsTrue, IsFalse};
ghost use Rattle.std.specs.Io.KnownBytes.{WriteAppends};
ghost use Rattle.grove_io.specs.Outside.{HasRisen};
ghost use Rattle.grove_io.specs.Tries.{Tries, TakesNothing};
ghost use Rattle.grove_io.specs.WriterSink.{errors_of, writer_of};

use crate::tries::ends_call;
use crate::{Failed, Sink, Writer};

/// Writes through a writer of std, as standard output. It tells no bytes. Its count of faults is how often the
/// writer has answered an error, or has taken nothing of a piece that was not empty.
///
/// An error of the kind `Interrupted` is no end of the writing, as in std: it is counted, and the write is tried
/// again in the same call. It flushes nothing, so the writer is to keep no bytes back.
#[derive(Drop)]
pub struct WriterSink<W> {
    writer: W,
    faults: u64,
}

impl<W: Writer> WriterSink<W> {
    /// The count of faults begins at 0.
    pub fn new(writer: W) -> Self
        ensures writer { writer_of result ≡ writer }
        ensures no_error { errors_of result ≡ 0 }
    {
        WriterSink { writer, faults: 0 }
    }
}

impl<W: Writer> Sink for WriterSink<W> {
    ghost taken = { λ _. None };

    ghost faults = { errors_of };

    // What the writer knows of its bytes holds through the sink too.
    fn write(&mut self, piece: &[u8]) -> Result<usize, Failed>
        ensures within { IfOk result (λ count. count ≤ length piece.now) }
        ensures bytes { WriteAppends (W.contents (writer_of self.old)) (W.contents (writer_of self.new))
            result piece.now }
        ensures progress { IfOk result (λ count. 0 < length piece.now → 0 < count) }
        ensures tries { Tries W.answers (TakesNothing piece.now) (writer_of self.old) (errors_of self.old) result
            (writer_of self.new) (errors_of self.new) }
        ensures never_falls { errors_of self.old ≤ errors_of self.new }
        ensures cause { OnErr result (HasRisen (errors_of self.old) (errors_of self.new)) }
    {
        loop {
            match self.writer.write_once(piece) {
                Ok(count) if takes_nothing(piece, count) => {
                    self.faults = self.faults.saturating_add(1);
                    return Err(Failed);
                }
                Ok(count) => return Ok(count),
                Err(error) => {
                    if ends_call(&error, &mut self.faults) {
                        return Err(Failed);
                    }
                }
            }
        }
    }
}

// A write that took 0 bytes of a piece that is not empty is a fault: tried again it might never end.
fn takes_nothing(piece: &[u8], count: usize) -> bool
    ensures nothing { IsTrue result → TakesNothing piece.now count }
    ensures something { IsFalse result → ¬ TakesNothing piece.now count }
{
    count == 0 && !piece.is_empty()
}

#[cfg(test)]
mod tests {
    use super::*;
    use crate::write_out;
    use std::io;
    use std::io::{ErrorKind, Write};
    use std::process::Abort;

    // Takes two bytes at each odd call. The second call is interrupted, the fourth takes none, and the sixth fails.
    #[derive(Drop)]
    struct Halting {
        calls: u8,
        taken: usize,
    }

    impl Write for Halting {
        fn write(&mut self, buf: &[u8]) -> io::Result<usize> {
            self.calls = self.calls.saturating_add(1);
            match self.calls {
                2 => Err(io::Error::from(ErrorKind::Interrupted)),
                4 => Ok(0),
                6 => Err(io::Error::from(ErrorKind::Other)),
                _ => {
                    let count = buf.len().min(2);
                    self.taken = self.taken.saturating_add(count);
                    Ok(count)
                }
            }
        }

        fn flush(&mut self) -> io::Result<()> {
            Ok(())
        }
    }

    // Writes what is left of eight bytes, and tells how many faults there were and how many bytes were taken.
    fn check_left<R: Abort>(
        rt: &R,
        sink: &mut WriterSink<Halting>,
        wanted: Result<(), Failed>,
        told: (u64, usize),
    ) {
        let rest = &b"abcdefgh"[sink.writer.taken.min(8)..];
        assert!(rt; write_out(sink, rest) == wanted);
        assert!(rt; (sink.faults, sink.writer.taken) == told);
    }

    #[test]
    fn counts_a_write_that_takes_nothing(rt: HostRuntime) {
        let mut sink = WriterSink::new(Halting { calls: 0, taken: 0 });
        check_left(&rt, &mut sink, Err(Failed), (2, 4));
        check_left(&rt, &mut sink, Err(Failed), (3, 6));
        check_left(&rt, &mut sink, Ok(()), (3, 8));
    }
}
