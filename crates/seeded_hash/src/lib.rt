//! A fast hash with a seed, for tables whose keys a stranger chooses: without the seed nobody tells which keys fall together. What a
//! table finds is the same whatever its seed is. Tables of types, of contexts and of vertices stand on this crate.
#![tactic(auto)]

mod hasher;
mod seed;

pub use hasher::SeededHasher;
pub use seed::HashSeed;
