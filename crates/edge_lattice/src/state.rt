ghost use Rattle.std.specs.Prelude.{◌≡◌, ◌↔◌, IsTrue};
ghost use Rattle.edge_lattice.specs.declared.state.State.{State};
ghost use Rattle.edge_lattice.specs.State.{IsAtMost, state_join};

/// What is known of an edge: nothing, that it was inserted, or that it was deleted. Deletion is for good.
#[derive(Clone, Copy, Debug, PartialEq, Eq, PartialOrd, Ord, Hash)]
pub enum State {
    Absent,
    Live,
    Deleted,
}

/// The greater of two states.
pub fn join(a: State, b: State) -> State
    ensures greater { result ≡ state_join a b }
{
    a.max(b)
}

/// Whether a state is at most another, in the order Absent, Live, Deleted.
pub fn leq(a: State, b: State) -> bool
    ensures at_most { IsTrue result ↔ IsAtMost a b }
{
    a <= b
}

/// Law: the join is associative, commutative and idempotent, and it is the least state that is at least both.
pub fn join_is_a_semilattice()
    ensures associative { (a b c : State) → state_join (state_join a b) c ≡ state_join a (state_join b c) }
    ensures commutative { (a b : State) → state_join a b ≡ state_join b a }
    ensures idempotent { (a : State) → state_join a a ≡ a }
    ensures first_at_most { (a b : State) → IsAtMost a (state_join a b) }
    ensures second_at_most { (a b : State) → IsAtMost b (state_join a b) }
    ensures least { (a b c : State) → IsAtMost a c → IsAtMost b c → IsAtMost (state_join a b) c }
{}
