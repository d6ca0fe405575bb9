//! Equations between types with variables, and their most general answer. Contracts see equations as pairs of finite terms, and an
//! answer as a finite term for each variable; the code keeps terms by number and shares their parts.
#![tactic(auto)]

mod eq_list;
mod equation;
mod form;
mod joining;
mod laws;
mod link;
mod linking;
mod node;
mod placing;
mod positions;
mod rows;
mod scope;
mod solution;
mod solving;
mod tree;
mod writing;

pub use eq_list::EqList;
pub use equation::Equation;
pub use form::Form;
pub use laws::{
    a_parameter_that_is_added_is_a_number, a_truth_value_is_not_added,
    conflicts_and_references_have_lines, most_general_terms_give_a_solution,
    nothing_is_applied_to_itself, the_innermost_binder_counts,
};
pub use solution::Solution;
pub use solving::{Inference, solve};
pub use text_parts::NoMemory;
pub use tree::equations;

#[cfg(test)]
mod tests;
