//! Tests of marks: types, contexts, whole trees, kept marks, and how they print. Each test calls what a crate makes public. What is demanded of
//! each constructor, and what it shows, is looked at on the built program.
#![tactic(auto)]

#[cfg(test)]
mod ctx_table_tests;
#[cfg(test)]
mod grove_answers_tests;
#[cfg(test)]
mod grove_json_tests;
#[cfg(test)]
mod grove_printer_tests;
#[cfg(test)]
mod mark_incremental_tests;
#[cfg(test)]
mod mark_rules_tests;
#[cfg(test)]
mod mark_store_tests;
#[cfg(test)]
mod near_tests;
#[cfg(test)]
mod plain_typing_tests;
#[cfg(test)]
mod type_core_tests;
