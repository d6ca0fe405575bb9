//! `run` under gates that hold calls: which calls they are asked for, how often, and who is at work at once.
use grove_io::{Gate, MemorySink, MemorySource};
use grove_top::{Status, run};
use memchr::memmem;
use seeded_hash::HashSeed;
use std::alloc::Global;
use std::sync::Wait;
use std::sync::atomic::{AtomicU64, Ordering};
use std::test::Fail;
use std::thread::Threads;

// A set of one call of an author, of which both numbers are below 8. Sets are joined by `|`.
fn call_of(author: u32, call: u64) -> u64 {
    1u64.rotate_left(author.wrapping_mul(8).wrapping_add((call % 8) as u32))
}

/// Holds some calls, each until it was asked for all of a set, and lets the others start at once.
#[derive(Drop)]
struct Holding<'a> {
    /// Sets of calls that are held, each with the set that it waits for.
    holds: &'a [(u64, u64)],
    asked: AtomicU64,
    /// The calls that were let start. A call that starts because it was asked for too often is none of them.
    started: AtomicU64,
    asks: AtomicU64,
}

impl<'a> Gate for Holding<'a> {
    fn ready(&self, author: u32, call: u64) -> bool {
        let own = call_of(author, call);
        let asked = self.asked.fetch_or(own, Ordering::SeqCst) | own;
        self.asks.fetch_add(1, Ordering::SeqCst);
        for (held, until) in self.holds {
            if *held & own != 0 && asked & *until != *until {
                return false;
            }
        }
        self.started.fetch_or(own, Ordering::SeqCst);
        true
    }
}

fn gate_of(holds: &[(u64, u64)]) -> Holding<'_> {
    Holding {
        holds,
        asked: AtomicU64::new(0),
        started: AtomicU64::new(0),
        asks: AtomicU64::new(0),
    }
}

// Whether the command is done.
fn is_done<R: Threads + Wait + Sync>(
    rt: &R,
    alloc: Global,
    words: &[String],
    source: &mut MemorySource,
    sink: &mut MemorySink,
    gate: &Holding<'_>,
) -> bool {
    run(rt, alloc, HashSeed::FIXED, words, source, sink, gate).status == Status::Done
}

// Appends the report of a session, if it is run to its end.
fn append_report<R: Threads + Wait + Sync>(
    rt: &R,
    alloc: Global,
    words: &[String],
    source: &mut MemorySource,
    gate: &Holding<'_>,
    report: &mut Vec<u8>,
) -> Result<(), Fail> {
    let mut sink = MemorySink::new(alloc, 4096, 4096, Vec::new(alloc))?;
    if !is_done(rt, alloc, words, source, &mut sink, gate) {
        return Err(Fail::from("a report"));
    }
    report.extend_from_slice(sink.taken())?;
    Ok(())
}

// The same of a session's text.
fn report<R: Threads + Wait + Sync>(
    rt: &R,
    alloc: Global,
    session: &[u8],
    gate: &Holding<'_>,
    report: &mut Vec<u8>,
) -> Result<(), Fail> {
    let words = vec![in alloc; String::from_str(alloc, "run")?]?;
    let text = Vec::from_slice(alloc, session)?;
    let mut source = MemorySource::new(text, 4096, Vec::new(alloc));
    append_report(rt, alloc, &words, &mut source, gate, report)
}

fn has(text: &[u8], part: &[u8]) -> bool {
    memmem::find(text, part).is_some()
}

// Whether these calls were let start and no other one, and none started because it was asked for too often.
fn lets_start(gate: &Holding<'_>, calls: u64) -> bool {
    let started = gate.started.load(Ordering::SeqCst);
    started == calls && gate.asks.load(Ordering::SeqCst) < 1_000_000
}

// The calls 1 to 4 of an author.
fn four_calls(author: u32) -> u64 {
    call_of(author, 1) | call_of(author, 2) | call_of(author, 3) | call_of(author, 4)
}

const THREE_BLOCKS: &[u8] = b"session
replica a
author 1 a
author 2 a
block
1 cut 1.1
2 cut 1.1
1 cut 1.1
end
block
2 cut 1.1
2 cut 1.1
end
block
1 cut 1.1
1 cut 1.1
2 cut 1.1
end
";

#[test]
fn each_line_is_asked_for_by_its_number(rt: HostRuntime) -> Result<(), Fail> {
    let gate = gate_of(&[]);
    let mut text = Vec::new(rt.alloc());
    report(&rt, rt.alloc(), THREE_BLOCKS, &gate, &mut text)?;
    let all = four_calls(1) | four_calls(2);
    assert!(rt; lets_start(&gate, all));
    assert!(rt; gate.asked.load(Ordering::SeqCst) == all);
    assert!(rt; gate.asks.load(Ordering::SeqCst) == 8);
    Ok(())
}

const ONE_LINE: &[u8] = b"session
replica a
author 1 a
block
1 construct 0.0 main num:1
end
";

#[test]
fn a_gate_that_is_never_ready_is_asked_a_million_times(rt: HostRuntime) -> Result<(), Fail> {
    let holds = [(call_of(1, 1), call_of(2, 1))];
    let gate = gate_of(&holds);
    let mut text = Vec::new(rt.alloc());
    report(&rt, rt.alloc(), ONE_LINE, &gate, &mut text)?;
    assert!(rt; gate.asks.load(Ordering::SeqCst) == 1_000_000);
    assert!(rt; gate.started.load(Ordering::SeqCst) == 0);
    assert!(rt; has(&text, b"1 construct 0.0 main num:1 = made 1.1\n"));
    Ok(())
}

// Two authors construct and delete at one place, and do the same again in a second block.
const MEETING: &[u8] = b"session
replica a
replica b
author 1 a
author 2 a
load a +3.2 0.0 root main 3.1 plus
load b +3.2 0.0 root main 3.1 plus
load b +3.4 3.1 plus right 3.3 true
block
1 construct 3.1 left num:1
1 delete 3.1 left
2 construct 3.1 left num:2
2 delete 3.1 left
send b a skip 0 take 9 forward once cut 1000
end
block
1 construct 3.1 left num:1
1 delete 3.1 left
2 construct 3.1 left num:2
2 delete 3.1 left
send a b skip 0 take 9 reverse twice cut 50
end
";

// Author 1 constructs only once author 2 did, and author 2 deletes only once author 1 tried to construct.
#[test]
fn two_authors_meet(rt: HostRuntime) -> Result<(), Fail> {
    let holds = [
        (call_of(1, 1), call_of(2, 2)),
        (call_of(2, 2), call_of(1, 2)),
        (call_of(1, 3), call_of(2, 4)),
        (call_of(2, 4), call_of(1, 4)),
    ];
    let gate = gate_of(&holds);
    let mut text = Vec::new(rt.alloc());
    report(&rt, rt.alloc(), MEETING, &gate, &mut text)?;
    assert!(rt; lets_start(&gate, four_calls(1) | four_calls(2)));
    for line in [
        b"\n2 construct 3.1 left num:2 = made 2.1\n".as_slice(),
        b"\n1 construct 3.1 left num:1 = refused 5 occupied 2.2\n".as_slice(),
        b"\n2 construct 3.1 left num:2 = made 2.3\n".as_slice(),
        b"\n1 construct 3.1 left num:1 = refused 5 occupied 2.4\n".as_slice(),
    ] {
        assert!(rt; has(&text, line));
    }
    Ok(())
}

// An author cuts both children of a vertex and makes another one there, and does the same again in a second block.
const CUTTING: &[u8] = b"session
replica a
author 1 a
author 2 a
load a +3.2 0.0 root main 3.1 plus
load a +3.4 3.1 plus left 3.3 num:7
load a +3.6 3.1 plus right 3.5 num:8
block
1 cut 3.4
1 cut 3.6
1 construct 3.1 left num:1
2 construct 0.0 main num:2
2 construct 0.0 main num:2
end
block
1 cut 3.4
1 cut 3.6
1 construct 3.1 right num:1
2 construct 0.0 main num:2
2 construct 0.0 main num:2
end
";

// Both cuts start before author 2 acts, and wait: they are entered with the line behind them, once author 2 has acted.
#[test]
fn cut_before_turn(rt: HostRuntime) -> Result<(), Fail> {
    let holds = [
        (call_of(2, 1), call_of(1, 3)),
        (call_of(1, 3), call_of(2, 2)),
        (call_of(2, 3), call_of(1, 6)),
        (call_of(1, 6), call_of(2, 4)),
    ];
    let gate = gate_of(&holds);
    let mut text = Vec::new(rt.alloc());
    report(&rt, rt.alloc(), CUTTING, &gate, &mut text)?;
    let all = four_calls(1) | call_of(1, 5) | call_of(1, 6) | four_calls(2);
    assert!(rt; lets_start(&gate, all));
    for part in [
        b"block 1\njournal a 5\n2 construct 0.0 main num:2 = refused 5 occupied 3.2\n".as_slice(),
        b"\n1 cut 3.4 = done\n1 cut 3.6 = done\n1 construct 3.1 left num:1 = made 1.1\n".as_slice(),
        b"block 2\njournal a 5\n2 construct 0.0 main num:2 = refused 5 occupied 3.2\n".as_slice(),
        b"\n1 cut 3.4 = done\n1 cut 3.6 = done\n1 construct 3.1 right num:1 = made 1.3\n".as_slice(),
    ] {
        assert!(rt; has(&text, part));
    }
    Ok(())
}

const CROWD: &[u8] = b"session
replica a
replica b
replica c
author 1 a
author 2 a
author 3 a
author 4 b
author 5 b
author 6 c
block
1 cut 1.1
2 cut 1.1
3 cut 1.1
4 cut 1.1
5 cut 1.1
6 cut 1.1
end
block
1 cut 1.1
2 cut 1.1
3 cut 1.1
4 cut 1.1
5 cut 1.1
6 cut 1.1
end
";

// The calls of this number of all six authors.
fn calls_of_all(call: u64) -> u64 {
    let mut calls = 0;
    for author in 1..7u32 {
        calls |= call_of(author, call);
    }
    calls
}

#[test]
fn all_authors_of_all_replicas_are_at_work_at_once(rt: HostRuntime) -> Result<(), Fail> {
    let (first, second) = (calls_of_all(1), calls_of_all(2));
    let holds = [(first, first), (second, second)];
    let gate = gate_of(&holds);
    let mut text = Vec::new(rt.alloc());
    report(&rt, rt.alloc(), CROWD, &gate, &mut text)?;
    assert!(rt; lets_start(&gate, first | second));
    Ok(())
}
