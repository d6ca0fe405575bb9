/// How many loads a generated session may have.
pub const MOST_LOADS: u64 = 200_000;
