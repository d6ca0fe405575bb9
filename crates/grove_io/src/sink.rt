// Where bytes go.
ghost use Rattle.std.specs.Prelude.{◌≡◌, ◌<◌, ◌≤◌, ◌-◌, ℕ, List, Option, length, IfOk, IsOk, OnErr};
ghost use Rattle.grove_io.specs.Outside.{Took, HasRisen, moved};

use crate::Failed;

/// Takes bytes, as many a call as it likes. Any call may fail, and a later one may go on.
pub trait Sink {
    /// The bytes that it has taken, where it tells them.
    ghost taken: { Self → Option (List ℕ) };

    /// How often it has failed. At the last value of a `u64` the count stays.
    ghost faults: { Self → ℕ };

    /// Its calls are known to succeed for this many bytes more.
    ghost never_fails: { Self → ℕ → Type 0 } = { λ _ _. ⊥ };

    /// Appends bytes from the front of `piece` and answers how many: none only of an empty piece.
    fn write(&mut self, piece: &[u8]) -> Result<usize, Failed>
        ensures within { IfOk result (λ count. count ≤ length piece.now) }
        ensures took { Took (taken self.old) (moved result piece.now) (taken self.new) }
        ensures progress { IfOk result (λ count. 0 < length piece.now → 0 < count) }

        ensures never_falls { faults self.old ≤ faults self.new }
        ensures cause { OnErr result (HasRisen (faults self.old) (faults self.new)) }

        ensures sure { (room : ℕ) → never_fails self.old room → length piece.now ≤ room → IsOk result }
        ensures stays_sure { (room : ℕ) → never_fails self.old room → length piece.now ≤ room
            → IfOk result (λ count. never_fails self.new (room - count)) }
        ensures no_fault { (room : ℕ) → never_fails self.old room → length piece.now ≤ room
            → faults self.new ≡ faults self.old };
}
