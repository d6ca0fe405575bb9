ghost use Rattle.std.specs.Prelude.{◌≡◌, ◌≤◌, ◌<◌, ◌+◌, ◌*◌};

use crate::sum::Sum;
use grove_edits::Actor;
use shared_replica::{NoMemory, Pass, Shared};
use std::alloc::Global;
use std::sync::Wait;
use std::thread::{Threads, join};

const CALLS_EACH: u64 = 100_000;

// Adds 1 so often, as the pass's actor. It stops where memory runs out.
fn add_numbers<R: Wait>(
    rt: &R,
    alloc: Global,
    shared: &Shared<Sum>,
    mut pass: Pass<Sum>,
    times: u64,
) -> Pass<Sum>
    requires shared { pass.shared ≡ shared.now }
    requires calls { times ≤ pass.calls }
    ensures { (result.shared ≡ shared.now) × (result.parts ≡ pass.parts) }
{
    for done in 0..times {
        let Ok(_sum) = shared.act(rt, alloc, &mut pass, 1) else {
            break;
        };
    }
    pass
}

// Lets so many workers add numbers, each in a thread of its own.
fn add_in_threads<R: Threads + Wait + Sync>(
    rt: &R,
    alloc: Global,
    shared: &Shared<Sum>,
    mut pass: Pass<Sum>,
    workers: u32,
) -> Pass<Sum>
    requires shared { pass.shared ≡ shared.now }
    requires parts { workers < pass.parts }
    requires calls { workers * 100000 ≤ pass.calls }
    ensures { (result.shared ≡ shared.now) × (result.parts ≡ pass.parts) }
{
    if workers == 0 {
        return pass;
    }
    let worker = shared.split(&mut pass, Actor::Author(workers), CALLS_EACH);
    let (worker, mut pass) = join(
        rt,
        || -> Pass<Sum>
            requires { (worker.shared ≡ shared.now) × (100000 ≤ worker.calls) }
            ensures { (result.shared ≡ shared.entry.now) × (result.parts ≡ worker.parts) }
        { add_numbers(rt, alloc, shared, worker, CALLS_EACH) },
        || -> Pass<Sum>
            requires { (pass.shared ≡ shared.now) × (0 < workers) × (workers < pass.parts + 1) × (workers * 100000 ≤ pass.calls + 100000) }
            ensures { (result.shared ≡ shared.entry.now) × (result.parts ≡ pass.parts) }
        { add_in_threads(rt, alloc, shared, pass, workers - 1) },
    );
    shared.join(&mut pass, worker);
    pass
}

/// How many calls so many workers made, and what the sum is then.
pub(crate) fn sum_of<R: Threads + Wait + Sync>(
    rt: &R,
    alloc: Global,
    workers: u32,
) -> Result<(usize, u64), NoMemory> {
    let calls = u64::from(workers) * CALLS_EACH;
    let parts = u64::from(workers) + 1;
    let Ok((shared, host)) = Shared::new(alloc, Sum { total: 0 }, calls, parts) else {
        return Err(NoMemory);
    };
    let host = add_in_threads(rt, alloc, &shared, host, workers);
    let (sum, journal) = shared.close(host);
    Ok((journal.len(), sum.total))
}
