use grove_edits::Action;

/// What an author does, or what one replica sends another.
#[derive(Clone, Copy, Debug, PartialEq, Eq)]
pub enum Line {
    Author { author: u32, action: Action },
    Send(SendLine),
}

/// One replica sends another a part of its edits: how many it leaves out and how many it takes then, in what order, how often,
/// and in pieces of how many bytes.
#[derive(Clone, Copy, Debug, PartialEq, Eq)]
pub struct SendLine {
    pub from: u64,
    pub to: u64,
    pub skip: u64,
    pub take: u64,
    pub reverse: bool,
    pub twice: bool,
    pub cut: u64,
}
