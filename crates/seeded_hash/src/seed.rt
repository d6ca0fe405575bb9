use crate::hasher::SeededHasher;
use std::hash::BuildHasher;
use std::io;
use std::random::RandomSource;

/// What each hash of a table begins with, and the factor of its words.
#[derive(Clone, Copy)]
pub struct HashSeed {
    state: u64,
    factor: u64,
}

impl HashSeed {
    /// The seed that anybody knows, for keys that are trusted and for tests.
    pub const FIXED: HashSeed = HashSeed {
        state: 0x243f_6a88_85a3_08d3,
        factor: 0x9e37_79b9_7f4a_7c15,
    };

    /// A seed that the machine draws at random.
    pub fn random<R: RandomSource>(rt: &R) -> io::Result<HashSeed> {
        let mut state = [0; 8];
        let mut factor = [0; 8];
        rt.fill_bytes(&mut state)?;
        rt.fill_bytes(&mut factor)?;
        Ok(HashSeed {
            state: u64::from_le_bytes(state),
            factor: u64::from_le_bytes(factor),
        })
    }
}

impl BuildHasher for HashSeed {
    type Hasher = SeededHasher;

    ghost use Rattle.seeded_hash.specs.Hashing.{first_hasher};

    ghost build_hasher = { first_hasher };

    fn build_hasher(&self) -> SeededHasher {
        SeededHasher {
            state: self.state,
            factor: self.factor,
        }
    }
}
