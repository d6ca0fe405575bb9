//! Tests of replicas and commands: actions, a live replica with and without kept marks, and commands on sources and sinks that fail. Each test
//! calls what a crate makes public. What commands write is looked at on the built program.
#![tactic(auto)]

#[cfg(test)]
mod gate_tests;
#[cfg(test)]
mod grove_tools_tests;
#[cfg(test)]
mod grove_top_tests;
#[cfg(test)]
mod kept_marks_tests;
#[cfg(test)]
mod replica_core_tests;
#[cfg(test)]
mod undo_tests;
#[cfg(test)]
mod user_actions_tests;
