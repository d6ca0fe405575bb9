// Where bytes come from.
ghost use Rattle.std.specs.Prelude.{◌≡◌, ◌<◌, ◌≤◌, ℕ, List, Option, length, IfOk, IsOk, OnErr};
ghost use Rattle.grove_io.specs.Outside.{Gave, HasRisen, IsAtEnd, moved};

use crate::Failed;

/// Gives bytes, a piece a call, until there are none. Any call may fail, and a later one may go on.
pub trait Source {
    /// The bytes that it has left, where it tells them.
    ghost left: { Self → Option (List ℕ) };

    /// How often it has failed. At the last value of a `u64` the count stays.
    ghost faults: { Self → ℕ };

    /// Its calls are known to succeed from here on.
    ghost never_fails: { Self → Type 0 } = { λ _. ⊥ };

    /// Puts the next bytes at the front of `out` and answers how many. 0 with room in `out` is the end.
    fn read(&mut self, out: &mut [u8]) -> Result<usize, Failed>
        ensures within { IfOk result (λ count. count ≤ length out.new) }
        ensures gave { Gave (left self.old) (moved result out.new) (left self.new) }
        ensures at_end { IfOk result (λ count. count ≡ 0 → 0 < length out.old → IsAtEnd (left self.old)) }

        ensures never_falls { faults self.old ≤ faults self.new }
        ensures cause { OnErr result (HasRisen (faults self.old) (faults self.new)) }

        ensures sure { never_fails self.old → IsOk result }
        ensures stays_sure { never_fails self.old → never_fails self.new }
        ensures no_fault { never_fails self.old → faults self.new ≡ faults self.old };
}
