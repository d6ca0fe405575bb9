//! An example of threads at one machine: so many workers add numbers at a shared sum, each 100,000 times. Run it under `time` to see
//! how many calls a second they make.
#![tactic(auto)]

mod adding;
mod sum;

use adding::sum_of;
use std::alloc::Global;
use std::env;
use std::process::ExitCode;
use std::rt::Env;
use text_parts::read_number;

/// Takes one word, the number of workers from 1 to 64, and writes how many calls they made and their sum.
fn main(rt: HostRuntime) -> ExitCode {
    let Some(workers) = workers(&rt, rt.alloc()) else {
        let _told = eprintln!(&rt; "usage: adding_program WORKERS, from 1 to 64");
        return ExitCode::from(2);
    };
    let Ok((calls, sum)) = sum_of(&rt, rt.alloc(), workers) else {
        return ExitCode::from(7);
    };
    match println!(&rt; "{workers} workers made {calls} calls, and the sum is {sum}") {
        Ok(()) => ExitCode::SUCCESS,
        Err(_) => ExitCode::from(6),
    }
}

fn workers<R: Env + AllocGlobal>(rt: &R, alloc: Global) -> Option<u32> {
    let words: Vec<String> = env::args(rt).ok()?.skip(1).collect(alloc).ok()?;
    let [word] = words.as_slice() else {
        return None;
    };
    let workers = read_number(word.as_bytes())?;
    if 1 <= workers && workers <= 64 {
        Some(workers as u32)
    } else {
        None
    }
}
