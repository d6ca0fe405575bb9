/// The live edges to a vertex by their indices: the least two, or fewer where there are fewer.
#[derive(Clone, Copy, Debug, PartialEq, Eq)]
pub enum Parents {
    Zero,
    One(usize),
    More(usize, usize),
}
