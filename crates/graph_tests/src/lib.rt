//! Tests of graphs: walks, live graphs alone and joined, and the trees that graphs decompose into. Each test calls what a crate makes public.
//! Tables, and the trees of their graphs one by one, are looked at on the built program.
#![tactic(auto)]

#[cfg(test)]
mod edge_lists_tests;
#[cfg(test)]
mod edge_numbers_tests;
#[cfg(test)]
mod graph_joins_tests;
#[cfg(test)]
mod grove_decompose_tests;
#[cfg(test)]
mod grove_terms_tests;
#[cfg(test)]
mod live_graph_tests;
#[cfg(test)]
mod numbers_by_name_tests;
#[cfg(test)]
mod seeded_hash_tests;
#[cfg(test)]
mod unicycle_roots_tests;
#[cfg(test)]
mod walks_tests;
