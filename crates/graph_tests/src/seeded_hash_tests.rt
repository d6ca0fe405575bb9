use seeded_hash::HashSeed;
use std::hash::{BuildHasher, Hash, Hasher};
use std::test::Fail;

#[test]
fn numbers_are_hashed_as_their_bytes(rt: HostRuntime) {
    let mut of_numbers = HashSeed::FIXED.build_hasher();
    0x0102_0304_u32.hash(&mut of_numbers);
    0x0102_0304_0506_0708_u64.hash(&mut of_numbers);
    let mut of_bytes = HashSeed::FIXED.build_hasher();
    of_bytes.write(&[4, 3, 2, 1]);
    of_bytes.write(&[8, 7, 6, 5, 4, 3, 2, 1]);
    assert!(rt; of_numbers.finish() == of_bytes.finish());
}

#[test]
fn two_seeds_of_the_machine_hash_otherwise(rt: HostRuntime) -> Result<(), Fail> {
    let first = HashSeed::random(&rt)?;
    let second = HashSeed::random(&rt)?;
    assert!(rt; first.hash_one(7_u64) != second.hash_one(7_u64));
    Ok(())
}
