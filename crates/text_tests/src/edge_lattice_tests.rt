use edge_lattice::*;

#[test]
fn a_state_only_rises(rt: HostRuntime) {
    for (a, b, joined, is_at_most) in [
        (State::Absent, State::Live, State::Live, true),
        (State::Live, State::Absent, State::Live, false),
        (State::Live, State::Live, State::Live, true),
        (State::Live, State::Deleted, State::Deleted, true),
        (State::Deleted, State::Live, State::Deleted, false),
        (State::Deleted, State::Absent, State::Deleted, false),
    ] {
        assert!(rt; join(a, b) == joined);
        assert!(rt; leq(a, b) == is_at_most);
    }
}
