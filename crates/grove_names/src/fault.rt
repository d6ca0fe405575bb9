use std::error::Error;
use std::fmt;

/// Why bytes are not read as a name.
#[derive(Clone, Copy, Debug, PartialEq, Eq)]
pub enum NameFault {
    /// They are the text of no name.
    NotAName,
}

impl fmt::Display for NameFault {
    fn fmt<W: fmt::Write>(&self, f: &mut fmt::Formatter<W>) -> fmt::Result {
        f.write_str("not a name")
    }
}

impl Error for NameFault {}
