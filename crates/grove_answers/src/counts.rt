/// How many trees a graph has of each class, and how many of their nodes are conflicts and have a mark.
#[derive(Clone, Copy, Debug, PartialEq, Eq)]
pub struct Counts {
    pub none: u64,
    pub multi: u64,
    pub cycle: u64,
    /// How many lines of the print text are conflicts.
    pub conflicts: u64,
    /// How many lines of the print text have a mark.
    pub marks: u64,
}
