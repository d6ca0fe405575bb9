//! What an author's action does to a graph: it is planned as edits, or refused with the first fault that applies.
//! Replicas stand on this crate.
#![tactic(auto)]

mod admitted;
mod admitting;
mod carried;
mod edges;
mod edits;
mod laws;
mod live_view;
mod new_names;
mod opening_flags;
mod place;
mod plan_view;
mod planned;
mod planning;
mod spot;
mod vertices;

pub use laws::{
    a_place_has_the_vertex_that_was_meant, a_place_is_filled_or_emptied, a_refusal_has_no_edits,
    children_stand_below_the_new_vertex, every_action_has_one_plan,
    graphs_of_edits_can_be_planned_on, moves_make_no_cycle_root, new_names_are_new,
    other_places_stay,
};
pub use live_view::LiveView;
pub use opening_flags::OpeningFlags;
pub use plan_view::PlanView;
pub use planned::{Plan, PlanFault};
pub use planning::plan;
pub use text_parts::NoMemory;
