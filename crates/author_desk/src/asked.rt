// For which calls a gate is asked.
ghost use Rattle.std.specs.Prelude.{ℕ};

use grove_io::Gate;

/// What is asked before a line of an author starts: each gate, and whatever else says when calls may start. What asks one of which nothing
/// else is known has a contract that names the calls that it asks for, and asks for no others.
pub trait Asked: Sync {
    /// The calls that it may be asked for, by author and number: all, where it says nothing else.
    ghost may_ask: { Self → ℕ → ℕ → Type 0 } = { λ _ _ _. Unit {0} };

    /// Whether a call may start. `call` is the number of the author's line in the whole session, from 1.
    fn is_ready(&self, author: u32, call: u64) -> bool
        requires { may_ask self.now author call };
}

impl<G: Gate> Asked for G {
    fn is_ready(&self, author: u32, call: u64) -> bool {
        self.ready(author, call)
    }
}
