//! The class of a vertex, by a walk up its live parent edges: whether it heads a tree of the grove, and why. The walk keeps no
//! list. Also the roots of all cycles, in a number of ticks that grows with the live edges and not with the lengths of the chains.
//! Both stand on whatever tells a vertex's parents.
#![tactic(auto)]

mod classes;
mod cycle;
mod cycle_root;
mod met;
mod roots;
mod step_up;

pub use classes::class_of;
pub use graph_words::Class;
pub use roots::cycle_roots;
pub use text_parts::NoMemory;
