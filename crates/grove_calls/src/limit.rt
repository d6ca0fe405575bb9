/// How many bytes an input may have.
pub const MOST_BYTES: usize = 16_777_216;
