//! Compares, after each of many random edits, what a replica prints with what a table of its canonical list prints. In each round a
//! replica of a few vertices takes so many insertions and deletions.
#![tactic(auto)]

mod comparing;
mod random;
mod world;

use comparing::compare_rounds;
use random::Random;
use std::alloc::Global;
use std::env;
use std::process::ExitCode;
use std::rt::Env;
use text_parts::read_number;

/// Takes three words, how many rounds, how many edits a round and the number that all chance follows from. It ends with 1 where the two
/// differ, and tells after how many edits.
fn main(rt: HostRuntime) -> ExitCode {
    let Some((rounds, edits, seed)) = numbers(&rt, rt.alloc()) else {
        let _told = eprintln!(&rt; "usage: comparing_program ROUNDS EDITS SEED");
        return ExitCode::from(2);
    };
    let Ok(found) = compare_rounds(rt.alloc(), rounds, edits, Random::new(seed)) else {
        return ExitCode::from(7);
    };
    let taken = found.taken;
    let deletions = found.deletions;
    if !found.same {
        let _told = eprintln!(&rt; "different after {taken} edits");
        return ExitCode::from(1);
    }
    match println!(rt; "{taken} edits, {deletions} of them deletions: each time the same") {
        Ok(()) => ExitCode::SUCCESS,
        Err(_) => ExitCode::from(6),
    }
}

fn numbers<R: Env + AllocGlobal>(rt: &R, alloc: Global) -> Option<(u64, u64, u64)> {
    let words: Vec<String> = env::args(rt).ok()?.skip(1).collect(alloc).ok()?;
    let [rounds, edits, seed] = words.as_slice() else {
        return None;
    };
    Some((
        read_number(rounds.as_bytes())?,
        read_number(edits.as_bytes())?,
        read_number(seed.as_bytes())?,
    ))
}
