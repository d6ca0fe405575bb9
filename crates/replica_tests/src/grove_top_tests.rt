use grove_io::{MemorySink, MemorySource, OpenGate};
use grove_top::{Status, exit_status, run};
use seeded_hash::HashSeed;
use std::alloc::Global;
use std::sync::Wait;
use std::test::Fail;
use std::thread::Threads;

const DELETED_WINS: &[u8] = b"-1.2 0.0 root main 1.1 num:7
+1.2 0.0 root main 1.1 num:7
+1.2 0.0 root main 1.1 num:7
+1.2 0.0 root main 1.1 num:7
";

// What a command comes to, and how many journals it hands out.
fn outcome_of<R: Threads + Wait + Sync>(
    rt: &R,
    alloc: Global,
    words: &[String],
    source: &mut MemorySource,
    sink: &mut MemorySink,
) -> (Status, usize) {
    let seed = HashSeed::FIXED;
    let outcome = run(rt, alloc, seed, words, source, sink, &OpenGate);
    (outcome.status, outcome.journals.len())
}

// The same into a sink that takes four bytes a call. What it took is appended.
fn written<R: Threads + Wait + Sync>(
    rt: &R,
    alloc: Global,
    words: &[String],
    source: &mut MemorySource,
    failing_write: u64,
    text: &mut Vec<u8>,
) -> Result<(Status, usize), Fail> {
    let mut sink = MemorySink::new(alloc, 4096, 4, vec![in alloc; failing_write]?)?;
    let told = outcome_of(rt, alloc, words, source, &mut sink);
    text.extend_from_slice(sink.taken())?;
    Ok(told)
}

// The same of a text that comes a byte a read; one read and one write may fail.
fn answered<R: Threads + Wait + Sync>(
    rt: &R,
    alloc: Global,
    words: &[String],
    input: &[u8],
    failing: (u64, u64),
    text: &mut Vec<u8>,
) -> Result<(Status, usize), Fail> {
    let failing_read = vec![in alloc; failing.0]?;
    let mut source = MemorySource::new(Vec::from_slice(alloc, input)?, 1, failing_read);
    written(rt, alloc, words, &mut source, failing.1, text)
}

fn words_of(alloc: Global, words: &[&str]) -> Result<Vec<String>, Fail> {
    let mut list = Vec::new(alloc);
    for word in words {
        list.push(String::from_str(alloc, word)?)?;
    }
    Ok(list)
}

fn told<R: Threads + Wait + Sync>(
    rt: &R,
    alloc: Global,
    words: &[&str],
    input: &[u8],
    failing: (u64, u64),
    text: &mut Vec<u8>,
) -> Result<(Status, usize), Fail> {
    let list = words_of(alloc, words)?;
    answered(rt, alloc, &list, input, failing, text)
}

#[test]
fn each_failing_read_is_told(rt: HostRuntime) -> Result<(), Fail> {
    let mut text = Vec::new(rt.alloc());
    for call in 1..119u64 {
        text.clear();
        let failing = (call, 0);
        let (status, _) = told(
            &rt,
            rt.alloc(),
            &["merge"],
            DELETED_WINS,
            failing,
            &mut text,
        )?;
        let (want, number) = if call < 118 {
            (Status::ReadFault, 5)
        } else {
            (Status::Done, 0)
        };
        assert!(rt; status == want, "read {call}");
        assert!(rt; exit_status(status) == number);
        assert!(rt; text.is_empty() == (call < 118), "read {call}");
    }
    Ok(())
}

#[test]
fn each_failing_write_leaves_a_front(rt: HostRuntime) -> Result<(), Fail> {
    let mut text = Vec::new(rt.alloc());
    for call in 1..10u64 {
        text.clear();
        let failing = (0, call);
        let (status, _) = told(
            &rt,
            rt.alloc(),
            &["merge"],
            DELETED_WINS,
            failing,
            &mut text,
        )?;
        let (want, number, taken) = if call < 9 {
            (Status::WriteFault, 6, 4 * (call as usize - 1))
        } else {
            (Status::Done, 0, 29)
        };
        assert!(rt; status == want, "write {call}");
        assert!(rt; exit_status(status) == number);
        assert!(rt;
            Some(text.as_slice()) == DELETED_WINS.get(..taken),
            "write {call}"
        );
    }
    Ok(())
}

// A generated session reads nothing, so that no read of it fails.
#[test]
fn journals_are_handed_out(rt: HostRuntime) -> Result<(), Fail> {
    let mut text = Vec::new(rt.alloc());
    let (status, journals) = told(&rt, rt.alloc(), &["gen", "1"], b"", (1, 0), &mut text)?;
    assert!(rt; status == Status::Done);
    assert!(rt; journals == 9);
    let session = b"session\nreplica a\nauthor 3 a\nblock\n3 construct 0.0 main num:5\nend\n";
    let (_, journals) = told(&rt, rt.alloc(), &["run"], session, (0, 0), &mut text)?;
    assert!(rt; journals == 1);
    Ok(())
}

#[test]
fn what_is_refused_hands_out_no_journals(rt: HostRuntime) -> Result<(), Fail> {
    let mut text = Vec::new(rt.alloc());
    for (words, input, wanted) in [
        (["run"].as_slice(), b"session\n".as_slice(), 3),
        (["gen", "0"].as_slice(), b"".as_slice(), 2),
        ([].as_slice(), b"".as_slice(), 2),
    ] {
        let (status, journals) = told(&rt, rt.alloc(), words, input, (0, 0), &mut text)?;
        assert!(rt; exit_status(status) == wanted);
        assert!(rt; journals == 0);
    }
    Ok(())
}
