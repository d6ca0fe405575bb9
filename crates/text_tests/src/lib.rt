//! Tests of texts and of what they say: numbers, names, constructors, edits, whole texts of edits, logs of edits, sessions, and what replicas send each
//! other. Each test calls what a crate makes public.
#![tactic(auto)]

#[cfg(test)]
mod edge_lattice_tests;
#[cfg(test)]
mod edit_journal_tests;
#[cfg(test)]
mod edit_stream_tests;
#[cfg(test)]
mod edit_text_tests;
#[cfg(test)]
mod grove_edits_tests;
#[cfg(test)]
mod grove_names_tests;
#[cfg(test)]
mod grove_sorts_tests;
#[cfg(test)]
mod replica_exchange_tests;
#[cfg(test)]
mod session_gen_tests;
#[cfg(test)]
mod session_script_tests;
#[cfg(test)]
mod text_parts_tests;
