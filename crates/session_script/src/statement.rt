use grove_edits::{Action, Edit};
use grove_sorts::{Ident, Version};

/// What one line of a session says by itself, with replicas by their names.
#[derive(Clone, Copy, Debug)]
pub enum Statement {
    /// The first line, which tells the version in which the others are read.
    Session(Version),
    Replica(Ident),
    Author { author: u32, replica: Ident },
    Load { replica: Ident, edit: Edit },
    Block,
    End,
    Act { author: u32, action: Action },
    Send(SendText),
    Show,
}

/// A `send` line, with replicas by their names.
#[derive(Clone, Copy, Debug)]
pub struct SendText {
    pub from: Ident,
    pub to: Ident,
    pub skip: u64,
    pub take: u64,
    pub reverse: bool,
    pub twice: bool,
    pub cut: u64,
}
