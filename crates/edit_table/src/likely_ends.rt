use crate::numbering::{fixed_key, source_key};
use crate::vertex_key::{NONE, VertexKey, are_neighbours};
use grove_edits::{SpelledEdit, SpelledVertex, Vertex};
use indexmap::IndexSet;
use seeded_hash::HashSeed;

/// How many edits may wait for their records.
pub(crate) const WAITING: usize = 64;

/// The numbers that the ends of some edits may have. They are a hint: what stands at a number is compared before it is taken.
///
/// A look-up waits for memory twice, for a place in the index and for the key that it tells. These are done one right after the other, so
/// that many wait at once, and what they read is at hand when the edits get their records.
#[derive(Drop)]
pub(crate) struct LikelyEnds {
    sources: [u32; WAITING],
    targets: [u32; WAITING],
}

impl LikelyEnds {
    /// Those of the ends of edits, as far as they are among the keys. The edits behind so many as may wait get none.
    #[inline(never)]
    pub(crate) fn of(keys: &IndexSet<VertexKey, HashSeed>, edits: &[SpelledEdit]) -> LikelyEnds {
        LikelyEnds {
            sources: likely_sources(keys, edits),
            targets: likely_targets(keys, edits),
        }
    }

    /// The number that the source of the edit at an index may have.
    #[inline(always)]
    pub(crate) fn source(&self, index: usize) -> u32 {
        self.sources.get(index).copied().unwrap_or(NONE)
    }

    /// The number that its target may have.
    #[inline(always)]
    pub(crate) fn target(&self, index: usize) -> u32 {
        self.targets.get(index).copied().unwrap_or(NONE)
    }
}

// Sources and targets are looked up apart, since most sources are found, and most targets are not. One that is hashed like an end of the
// edit before waits for nothing, and is left out.
fn likely_sources(keys: &IndexSet<VertexKey, HashSeed>, edits: &[SpelledEdit]) -> [u32; WAITING] {
    let mut numbers = [NONE; WAITING];
    let mut last = (Vertex::ROOT.name, Vertex::ROOT.name);
    for index in 0..edits.len().min(WAITING) {
        let key = source_key(&edits[index]);
        if !are_neighbours(&key.name, &last.0) && !are_neighbours(&key.name, &last.1) {
            numbers[index] = likely_number(keys, &key);
        }
        last = (key.name, edits[index].target().name);
    }
    numbers
}

fn likely_targets(keys: &IndexSet<VertexKey, HashSeed>, edits: &[SpelledEdit]) -> [u32; WAITING] {
    let mut numbers = [NONE; WAITING];
    let mut last = Vertex::ROOT.name;
    for index in 0..edits.len().min(WAITING) {
        let target = edits[index].target();
        if !are_neighbours(&target.name, &last) {
            numbers[index] = likely_target(keys, &target);
        }
        last = target.name;
    }
    numbers
}

#[inline(always)]
fn likely_number(keys: &IndexSet<VertexKey, HashSeed>, key: &VertexKey) -> u32 {
    match keys.get_index_of(key) {
        Some(index) => u32::try_from(index).unwrap_or(NONE),
        None => NONE,
    }
}

// The key of a vertex whose constructor is itself looked up is not known yet.
#[inline(always)]
fn likely_target(keys: &IndexSet<VertexKey, HashSeed>, target: &SpelledVertex) -> u32 {
    match fixed_key(&target.ctor) {
        Some(ctor) => likely_number(
            keys,
            &VertexKey {
                name: target.name,
                ctor,
            },
        ),
        None => NONE,
    }
}
