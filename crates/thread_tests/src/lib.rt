//! Tests of threads: boards, turns, shared replicas, relays, desks of authors, and blocks of a session. Each test calls what a crate makes public.
#![tactic(auto)]

#[cfg(test)]
mod author_desk_tests;
#[cfg(test)]
mod counter;
#[cfg(test)]
mod edge_board_tests;
#[cfg(test)]
mod live_relay_tests;
#[cfg(test)]
mod session_run_tests;
#[cfg(test)]
mod shared_replica_tests;
#[cfg(test)]
mod turn_lock_tests;
