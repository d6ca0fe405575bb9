// Readers of std, each call of which contracts can name.
ghost use Rattle.std.specs.Prelude.{◌≡◌, ℕ, Result};
ghost use Rattle.std.specs.Io.{ReadsAtMost};
ghost use Rattle.std.specs.Io.KnownBytes.{ReadConsumes};
ghost use Rattle.std.specs.declared.io.Error.{Error};

use std::io;
use std::io::Read;

/// A reader whose answers contracts can name. Each reader of std is one.
pub trait Reader: Read {
    /// A call on the first state may answer this, and leaves the second.
    ghost answers: { Self → Result ℕ Error → Self → Type 0 } = { λ _ _ _. Unit {0} };

    /// As `Read::read`.
    fn read_once(&mut self, out: &mut [u8]) -> io::Result<usize>
        ensures answers { answers self.old result self.new }
        ensures bound { ReadsAtMost result out.new }
        ensures bytes { ReadConsumes (Self.remaining self.old) (Self.remaining self.new) result out.new };
}

impl<R: Read> Reader for R {
    fn read_once(&mut self, out: &mut [u8]) -> io::Result<usize> {
        self.read(out)
    }
}
