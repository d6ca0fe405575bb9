/// What the words ask for.
#[derive(Clone, Copy, Debug, PartialEq, Eq)]
pub enum Command {
    /// A text of the graph of the input's edits.
    Ask(Question),
    /// The report of the session of the input.
    Run,
    /// The summary of the generated session with so many loads, from 1 to `MOST_LOADS`. The input is not read.
    Generate { loads: u64 },
}

/// What is asked of a graph.
#[derive(Clone, Copy, Debug, PartialEq, Eq)]
pub enum Question {
    /// Its canonical text.
    Merge,
    /// The print text of its grove.
    Show,
    /// The marked lines of that text, and how many trees there are and how many are typed.
    Check,
}
