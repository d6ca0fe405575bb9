//! What is kept of vertices: a map by vertex, in which room for a vertex stays once it is made, so that its value can be put, changed
//! and taken away without memory; and the marks of vertices, kept in such a map. Contracts see a map as what it answers for each
//! vertex, and which vertices have room. What keeps marks from edit to edit stands on this crate.
#![tactic(auto)]

mod mark_store;
mod record;
mod vertex_map;
mod vertex_set;

pub use mark_store::MarkStore;
pub use record::Record;
pub use text_parts::NoMemory;
pub use vertex_map::VertexMap;
pub use vertex_set::VertexSet;
