//! The program `grove`: the words of the command line, standard input and standard output around the top call.
#![tactic(auto)]

use grove_calls::program_words;
use grove_io::{OpenGate, ReaderSource, WriterSink};
use grove_top::{exit_status, run};
use seeded_hash::HashSeed;
use std::process::ExitCode;

fn main(rt: HostRuntime) -> ExitCode {
    let words = program_words(&rt, rt.alloc());
    // Where the machine draws no seed the text is answered all the same, only that its author could know the seed.
    let seed = HashSeed::random(&rt).unwrap_or(HashSeed::FIXED);
    let mut source = ReaderSource::new(rt.stdin());
    let mut sink = WriterSink::new(rt.stdout());
    let outcome = run(
        &rt,
        rt.alloc(),
        seed,
        &words,
        &mut source,
        &mut sink,
        &OpenGate,
    );
    ExitCode::from(exit_status(outcome.status))
}
