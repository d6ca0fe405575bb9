//! The words of a graph: the states of edges by their entries, names, live edges in edge order, the walk up from a vertex, cycles, and the
//! class of a vertex, as definitions with the lemmas that are cited of them. Whatever keeps a graph or walks over one stands on this crate:
//! it has the counter of steps that indexes tick, and the trait of what tells a vertex's parents.
#![tactic(auto)]

mod above;
mod change;
mod class;
mod few;
mod laws;
mod least;
mod named;
mod steps;

pub use above::vertex_above;
pub use change::{Change, asked_by};
pub use class::Class;
pub use few::{Few, ParentOf};
pub use laws::a_walk_ends;
pub use least::lesser;
pub use named::Named;
pub use steps::Steps;
