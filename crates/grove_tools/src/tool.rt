/// How many senders a relay may have.
pub const MOST_SENDERS: u32 = 8;

/// What the words ask for.
#[derive(Clone, Copy, Debug, PartialEq, Eq)]
pub enum Tool {
    /// Lets the edits of the input flow from so many senders, from 1 to `MOST_SENDERS`, to a replica, and writes how many each sent and the
    /// canonical text of the replica.
    Relay { senders: u32 },
    /// Writes for each tree of a program or an expression the types that its holes for types must have, or the number of the first
    /// equation that cannot hold.
    Infer,
    /// Keeps the edits of the input in a log on a disk in memory, opens the log again, and writes the canonical text of the edits found
    /// in it, behind the line of the input's version.
    Keep,
    /// Undoes the last action of this author, from 1 on, that was not refused in the session of the input, and writes how many edits that
    /// takes, or why it is refused, and the print text.
    Undo { author: u32 },
    /// Writes the report of the graph of the input as JSON.
    Json,
}
