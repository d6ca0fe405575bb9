ghost use Rattle.std.specs.Prelude.{◌≡◌, List, []};

/// A state that stores a list of entries. It is sent from thread to thread.
pub trait Kept: Send + Drop {
    /// What the list is of.
    type Entry;

    /// The state's plain data. No value of it is made.
    type First;

    /// The list.
    ghost list: { Self → List Self.Entry };

    /// The plain data.
    ghost now: { Self → Self.First };

    /// The list leads from these data to the present ones.
    ghost grown: { Self.First → Self → Type 0 };

    /// A state with an empty list has grown from its own data.
    ghost from_itself: { (state : Self) → list state ≡ [] → grown (now state) state };
}
