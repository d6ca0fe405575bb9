//! An example of a replica with kept marks whose calls are made again where memory ran out. It takes the edits of standard input one by
//! one. Where a call found no memory, it looks whether the graph and what is kept of it are as before, as the contracts say, and makes
//! the same call again. In the end it writes the canonical text of the graph, and behind it a line for each vertex.
//!
//! Run it where an allocator refuses a request: it writes the same as ever, unless the request was one of the looking, reading or writing.
#![tactic(auto)]

mod fault;
mod reading;
mod state;
mod taking;

use fault::{Fault, exit_status};
use grove_io::{ReaderSource, Source, WriterSink, write_out};
use reading::read_edits;
use std::alloc::Global;
use std::process::ExitCode;
use taking::state_after;

/// Tells `changed` on standard error where a call that found no memory left something else than there was.
fn main(rt: HostRuntime) -> ExitCode {
    let mut source = ReaderSource::new(rt.stdin());
    let written = match answer(rt.alloc(), &mut source) {
        Ok(text) => write_out(&mut WriterSink::new(rt.stdout()), &text).map_err(Fault::from),
        Err(fault) => Err(fault),
    };
    match written {
        Ok(()) => ExitCode::SUCCESS,
        Err(fault) => {
            if fault == Fault::Changed {
                let _told = eprintln!(&rt; "changed");
            }
            ExitCode::from(exit_status(fault))
        }
    }
}

// What is to be written once all edits of a source are taken.
fn answer<S: Source>(alloc: Global, source: &mut S) -> Result<Vec<u8>, Fault> {
    let edits = read_edits(alloc, source)?;
    state_after(alloc, edits.as_slice())
}
