ghost use Rattle.std.specs.Prelude.{◌≡◌, length};
ghost use Rattle.std.specs.Int.{w32, w64, from_le_bytes};
ghost use Rattle.seeded_hash.specs.Hashing.{folded_product, with_word};

use std::hash::Hasher;

/// What was written so far, a word at a time: each is joined to the state, and both are multiplied by a factor. Its factor and first
/// state are those of a seed, as in foldhash, so that no two keys have one hash under many seeds.
#[derive(Clone, Copy)]
pub struct SeededHasher {
    pub(crate) state: u64,
    pub(crate) factor: u64,
}

// The two halves of a product, joined by exclusive or.
fn folded_product(a: u64, b: u64) -> u64
    ensures { result ≡ folded_product a b }
{
    let product = a as u128 * b as u128;
    (product & 0xFFFF_FFFF_FFFF_FFFF) as u64 ^ (product >> 64) as u64
}

fn word_of_eight(bytes: &[u8]) -> u64
    requires { length bytes.now ≡ 8 }
    ensures { result ≡ from_le_bytes w64 bytes.now }
{
    u64::from_le_bytes([
        bytes[0], bytes[1], bytes[2], bytes[3], bytes[4], bytes[5], bytes[6], bytes[7],
    ])
}

fn word_of_four(bytes: &[u8]) -> u64
    requires { length bytes.now ≡ 4 }
    ensures { result ≡ from_le_bytes w32 bytes.now }
{
    u64::from(u32::from_le_bytes([bytes[0], bytes[1], bytes[2], bytes[3]]))
}

impl SeededHasher {
    fn add(&mut self, word: u64)
        ensures { self.new ≡ with_word self.old word }
    {
        self.state = folded_product(self.state ^ word, self.factor);
    }
}

impl Hasher for SeededHasher {
    ghost use Rattle.seeded_hash.specs.Hashing.{with_bytes};

    ghost write = { with_bytes };

    ghost finish = { λ h. h.state };

    fn finish(&self) -> u64 {
        self.state
    }

    fn write(&mut self, bytes: &[u8]) {
        if bytes.len() == 8 {
            self.add(word_of_eight(bytes));
        } else if bytes.len() == 4 {
            self.add(word_of_four(bytes));
        } else {
            for byte in bytes {
                self.add(u64::from(*byte));
            }
        }
    }

    // A number is one word, and need not become bytes first.
    fn write_u32(&mut self, i: u32) {
        self.add(u64::from(i));
    }

    fn write_u64(&mut self, i: u64) {
        self.add(i);
    }

    fn write_usize(&mut self, i: usize) {
        self.add(i as u64);
    }
}
