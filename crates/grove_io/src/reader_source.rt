// A source over a reader of std.
ghost use Rattle.std.specs.Prelude.{◌≡◌, ◌≤◌, None, length, IfOk, OnErr};
ghost use Rattle.std.specs.Io.KnownBytes.{ReadConsumes};
ghost use Rattle.grove_io.specs.Outside.{HasRisen};
ghost use Rattle.grove_io.specs.ReaderSource.{errors_of, reader_of};
ghost use Rattle.grove_io.specs.Tries.{Tries};

use crate::tries::ends_call;
use crate::{Failed, Reader, Source};

/// Reads through a reader of std, as standard input. It tells no bytes. Its count of faults is how often the
/// reader has answered an error.
///
/// An error of the kind `Interrupted` is no end of the reading, as in std: it is counted, and the read is tried
/// again in the same call.
#[derive(Drop)]
pub struct ReaderSource<R> {
    reader: R,
    faults: u64,
}

impl<R: Reader> ReaderSource<R> {
    /// The count of faults begins at 0.
    pub fn new(reader: R) -> Self
        ensures reader { reader_of result ≡ reader }
        ensures no_error { errors_of result ≡ 0 }
    {
        ReaderSource { reader, faults: 0 }
    }
}

impl<R: Reader> Source for ReaderSource<R> {
    ghost left = { λ _. None };

    ghost faults = { errors_of };

    // What the reader knows of its bytes holds through the source too.
    fn read(&mut self, out: &mut [u8]) -> Result<usize, Failed>
        ensures within { IfOk result (λ count. count ≤ length out.new) }
        ensures bytes { ReadConsumes (R.remaining (reader_of self.old)) (R.remaining (reader_of self.new))
            result out.new }
        ensures tries { Tries R.answers (λ _. ⊥) (reader_of self.old) (errors_of self.old) result
            (reader_of self.new) (errors_of self.new) }
        ensures never_falls { errors_of self.old ≤ errors_of self.new }
        ensures cause { OnErr result (HasRisen (errors_of self.old) (errors_of self.new)) }
    {
        loop {
            match self.reader.read_once(out) {
                Ok(count) => return Ok(count),
                Err(error) => {
                    if ends_call(&error, &mut self.faults) {
                        return Err(Failed);
                    }
                }
            }
        }
    }
}

#[cfg(test)]
mod tests {
    use super::*;
    use crate::{InputFault, read_all};
    use std::alloc::Global;
    use std::io;
    use std::io::{ErrorKind, Read};
    use std::process::Abort;
    use std::test::Fail;

    // Gives a byte at each odd call. The second call is interrupted, and the fourth fails.
    #[derive(Drop)]
    struct Halting {
        calls: u8,
    }

    impl Read for Halting {
        fn read(&mut self, buf: &mut [u8]) -> io::Result<usize> {
            self.calls = self.calls.saturating_add(1);
            match self.calls {
                2 => Err(io::Error::from(ErrorKind::Interrupted)),
                4 => Err(io::Error::from(ErrorKind::Other)),
                1 | 3 | 5 if !buf.is_empty() => {
                    buf[0] = b'0' + self.calls;
                    Ok(1)
                }
                _ => Ok(0),
            }
        }
    }

    fn check_tries<R: Abort>(
        rt: &R,
        alloc: Global,
        source: &mut ReaderSource<Halting>,
    ) -> Result<(), Fail> {
        let first = read_all(alloc, source, 8).err();
        assert!(rt; first == Some(InputFault::ReadFault));
        assert!(rt; source.faults == 2);
        let rest = read_all(alloc, source, 8)?;
        assert!(rt; rest.as_slice() == b"5".as_slice());
        Ok(())
    }

    #[test]
    fn tries_an_interrupted_read_again(rt: HostRuntime) -> Result<(), Fail> {
        let mut source = ReaderSource::new(Halting { calls: 0 });
        check_tries(&rt, rt.alloc(), &mut source)
    }
}
