use crate::fault::Fault;
use edit_stream::EditStream;
use edit_text::split_version;
use grove_edits::EditList;
use grove_io::{Source, read_all};
use std::alloc::Global;

// How many bytes an input may have, as of `grove`.
const MOST_BYTES: usize = 16_777_216;

/// The edits of the lines of a source, in their order.
pub(crate) fn read_edits<S: Source>(alloc: Global, source: &mut S) -> Result<EditList, Fault> {
    let text = read_all(alloc, source, MOST_BYTES)?;
    let (version, lines) = split_version(&text);
    let mut stream = EditStream::new(alloc, version);
    let mut edits = EditList::new(alloc);
    stream.feed(lines, &mut edits)?;
    stream.finish()?;
    Ok(edits)
}
