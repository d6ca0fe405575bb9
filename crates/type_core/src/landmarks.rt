//! Which types are landmarks: what is found of two types is kept where the left one is a landmark. A text may ask for two long types from
//! each of their parts on, and to keep each pairing of parts would then take the square of its length in memory, and as many look-ups. A
//! walk goes over fewer than 128 pairings before it is at landmarks, which end it where it was there before. Types that are parts of
//! several types are landmarks sooner, since one walk may come to them on many ways.
ghost use Rattle.std.specs.Prelude.{◌<◌, vec_len, vec_capacity};

use crate::table::TypeTable;
use crate::type_id::TypeId;

// A type with so many pairs outside of the landmarks among its parts is a landmark.
const LANDMARK_PAIRS: u8 = 64;

// The same for a part of several types.
const SHARED_LANDMARK_PAIRS: u8 = 8;

// What makes a type a landmark or not.
#[derive(Clone, Copy)]
pub(crate) struct Weight {
    // How many pairs it has outside of landmarks: none where it is one itself.
    pub(crate) pairs: u8,
    pub(crate) is_part: bool,
}

impl Weight {
    // The weight of a type without parts.
    pub(crate) const NONE: Weight = Weight {
        pairs: 0,
        is_part: false,
    };

    fn become_part(&mut self) {
        if self.is_part && self.pairs >= SHARED_LANDMARK_PAIRS {
            self.pairs = 0;
        }
        self.is_part = true;
    }
}

// Gives the last of so many types, which has these parts, its weight, where all before it have theirs.
pub(crate) fn add_weight(weights: &mut Vec<Weight>, types: usize, first: TypeId, second: TypeId)
    requires room { vec_len weights.old < vec_capacity weights.old }
{
    if weights.len() >= types {
        return;
    }
    let pairs = pairs_of(weights.as_slice(), first)
        .saturating_add(pairs_of(weights.as_slice(), second))
        .saturating_add(1);
    weights.push_reserved(Weight {
        pairs: if pairs < LANDMARK_PAIRS { pairs } else { 0 },
        is_part: false,
    });
    become_part(weights.as_mut_slice(), first);
    become_part(weights.as_mut_slice(), second);
}

// How many pairs a type has outside of landmarks.
fn pairs_of(weights: &[Weight], id: TypeId) -> u8 {
    match weights.get(id.0 as usize) {
        Some(weight) => weight.pairs,
        None => 0,
    }
}

fn become_part(weights: &mut [Weight], id: TypeId) {
    if let Some(weight) = weights.get_mut(id.0 as usize) {
        weight.become_part();
    }
}

impl TypeTable {
    pub(crate) fn is_landmark(&self, id: TypeId) -> bool {
        pairs_of(self.weights.as_slice(), id) == 0
    }
}
