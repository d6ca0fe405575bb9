// Writers of std, each call of which contracts can name.
ghost use Rattle.std.specs.Prelude.{◌≡◌, ℕ, Result};
ghost use Rattle.std.specs.Io.{WritesAtMost};
ghost use Rattle.std.specs.Io.KnownBytes.{WriteAppends};
ghost use Rattle.std.specs.declared.io.Error.{Error};

use std::io;
use std::io::Write;

/// A writer whose answers contracts can name. Each writer of std is one.
pub trait Writer: Write {
    /// A call on the first state may answer this, and leaves the second.
    ghost answers: { Self → Result ℕ Error → Self → Type 0 } = { λ _ _ _. Unit {0} };

    /// As `Write::write`.
    fn write_once(&mut self, piece: &[u8]) -> io::Result<usize>
        ensures answers { answers self.old result self.new }
        ensures bound { WritesAtMost result piece.now }
        ensures bytes { WriteAppends (Self.contents self.old) (Self.contents self.new) result piece.now };
}

impl<W: Write> Writer for W {
    fn write_once(&mut self, piece: &[u8]) -> io::Result<usize> {
        self.write(piece)
    }
}
