//! The outside of the program: a `Source` gives bytes and a `Sink` takes them, and each counts its faults.
//! There are sources and sinks in memory, and adapters over std's readers and writers.
//! `read_all` reads a source to its end, and `write_out` writes all of some bytes. A `Gate` says when the calls of authors start.
#![tactic(auto)]

mod calls;
mod fault;
mod gate;
mod memory_sink;
mod memory_source;
mod reader;
mod reader_source;
mod reading;
mod sink;
mod source;
mod sure_source;
mod tries;
mod writer;
mod writer_sink;
mod writing;

pub use fault::{Failed, InputFault};
pub use gate::{Gate, OpenGate};
pub use memory_sink::MemorySink;
pub use memory_source::MemorySource;
pub use reader::Reader;
pub use reader_source::ReaderSource;
pub use reading::read_all;
pub use sink::Sink;
pub use source::Source;
pub use sure_source::SureSource;
pub use text_parts::NoMemory;
pub use writer::Writer;
pub use writer_sink::WriterSink;
pub use writing::write_out;
