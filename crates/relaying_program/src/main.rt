//! An example of a relay: so many senders send edits, in runs, to a machine that counts them. Beside a program in plain Rust that does the
//! same with a channel it is measured by `bench/relay`.
#![tactic(auto)]

ghost use Rattle.std.specs.Prelude.{◌≤◌, IfSome};

mod counting;
mod sending;

use sending::counted;
use std::alloc::Global;
use std::env;
use std::process::ExitCode;
use std::rt::Env;
use text_parts::read_number;

/// Takes two words, the number of senders from 1 to 8 and how many edits each sends, at most a million. It writes how many edits the
/// machine counted, and to standard error how many microseconds they took on their way.
fn main(rt: HostRuntime) -> ExitCode {
    let Some((senders, edits)) = numbers(&rt, rt.alloc()) else {
        let _told = eprintln!(&rt;
            "usage: relaying_program SENDERS, from 1 to 8, EDITS, up to 1000000"
        );
        return ExitCode::from(2);
    };
    let Ok((edits, microseconds)) = counted(&rt, rt.alloc(), senders, edits) else {
        return ExitCode::from(7);
    };
    let _told = eprintln!(&rt; "{microseconds} microseconds");
    match println!(&rt; "{senders} senders sent {edits} edits") {
        Ok(()) => ExitCode::SUCCESS,
        Err(_) => ExitCode::from(6),
    }
}

fn numbers<R: Env + AllocGlobal>(rt: &R, alloc: Global) -> Option<(u32, u64)>
    ensures { IfSome result (λ numbers. (1 ≤ numbers.0) × (numbers.0 ≤ 8)) }
{
    let words: Vec<String> = env::args(rt).ok()?.skip(1).collect(alloc).ok()?;
    let [senders, edits] = words.as_slice() else {
        return None;
    };
    let senders = read_number(senders.as_bytes())?;
    let edits = read_number(edits.as_bytes())?;
    if 1 <= senders && senders <= 8 && edits <= 1_000_000 {
        Some((senders as u32, edits))
    } else {
        None
    }
}
