use edit_text::LineFault;

/// Why a stream did not end well: the first that applies.
#[derive(Clone, Copy, Debug, PartialEq, Eq)]
pub enum FinishFault {
    /// A feed answered this.
    Malformed { line: u64, fault: LineFault },
    /// Bytes stand behind the last LF; `line` is the number of the line that they begin.
    Rest { line: u64 },
}
