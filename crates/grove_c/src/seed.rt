use seeded_hash::HashSeed;
use std::io;
use std::random::RandomSource;

// The bytes of a number that the caller drew, over and over.
#[derive(Drop)]
struct GivenBytes([u8; 8]);

impl RandomSource for GivenBytes {
    fn fill_bytes(&self, buf: &mut [u8]) -> io::Result<()> {
        for (index, byte) in buf.iter_mut().enumerate() {
            *byte = self.0[index % 8];
        }
        Ok(())
    }
}

/// The seed of tables for a number that the caller drew. Numbers that are near each other have seeds that are far apart.
pub(crate) fn hash_seed(number: u64) -> HashSeed {
    HashSeed::random(&GivenBytes(mixed(number).to_le_bytes())).unwrap_or(HashSeed::FIXED)
}

// As SplitMix64 mixes its state.
fn mixed(number: u64) -> u64 {
    let sum = number.wrapping_add(0x9e37_79b9_7f4a_7c15);
    let once = (sum ^ (sum >> 30)).wrapping_mul(0xbf58_476d_1ce4_e5b9);
    let twice = (once ^ (once >> 27)).wrapping_mul(0x94d0_49bb_1331_11eb);
    twice ^ (twice >> 31)
}
