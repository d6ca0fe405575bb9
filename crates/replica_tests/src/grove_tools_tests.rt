use edit_journal::{EditLog, MemoryDisk};
use grove_io::{MemorySink, MemorySource};
use grove_tools::{ToolOutcome, ToolStatus, run_tool};
use seeded_hash::HashSeed;
use std::alloc::Global;
use std::sync::Wait;
use std::test::Fail;
use std::thread::Threads;

const DELETED_WINS: &[u8] = b"-1.2 0.0 root main 1.1 num:7
+1.2 0.0 root main 1.1 num:7
+1.2 0.0 root main 1.1 num:7
+1.2 0.0 root main 1.1 num:7
";

const USAGE: &[u8] = b"usage: grove_tools relay N | infer | keep | undo N | json\n";

/// How a call ended; how many entries the journal has that it handed out, or none at all; and how many edits the log has on its disk, or none.
type Told = (ToolStatus, Option<usize>, Option<usize>);

fn edits_on(alloc: Global, disk: Option<MemoryDisk>) -> Option<usize> {
    match EditLog::open(alloc, disk?) {
        Ok((_, edits)) => Some(edits.len()),
        Err(_) => None,
    }
}

fn told_of<R: Threads + Wait + Sync>(
    rt: &R,
    alloc: Global,
    words: &[String],
    source: &mut MemorySource,
    sink: &mut MemorySink,
) -> Told {
    let ToolOutcome {
        status,
        relayed,
        kept,
    } = run_tool(rt, alloc, HashSeed::FIXED, words, source, sink);
    let entries = relayed.as_ref().map(|journal| journal.len());
    drop(relayed);
    (status, entries, edits_on(alloc, kept))
}

// The same, and what is written is appended.
fn written<R: Threads + Wait + Sync>(
    rt: &R,
    alloc: Global,
    words: &[String],
    source: &mut MemorySource,
    out: &mut Vec<u8>,
) -> Result<Told, Fail> {
    let mut sink = MemorySink::new(alloc, 4096, 4096, Vec::new(alloc))?;
    let told = told_of(rt, alloc, words, source, &mut sink);
    out.extend_from_slice(sink.taken())?;
    Ok(told)
}

// The same of a text that comes in pieces of seven bytes; one read may fail.
fn answered<R: Threads + Wait + Sync>(
    rt: &R,
    alloc: Global,
    words: &[String],
    text: &[u8],
    failing_read: u64,
    out: &mut Vec<u8>,
) -> Result<Told, Fail> {
    let failing = vec![in alloc; failing_read]?;
    let mut source = MemorySource::new(Vec::from_slice(alloc, text)?, 7, failing);
    written(rt, alloc, words, &mut source, out)
}

fn words_of(alloc: Global, words: &[&str]) -> Result<Vec<String>, Fail> {
    let mut list = Vec::new(alloc);
    for word in words {
        list.push(String::from_str(alloc, word)?)?;
    }
    Ok(list)
}

fn told<R: Threads + Wait + Sync>(
    rt: &R,
    alloc: Global,
    words: &[&str],
    text: &[u8],
    failing_read: u64,
    out: &mut Vec<u8>,
) -> Result<Told, Fail> {
    let list = words_of(alloc, words)?;
    answered(rt, alloc, &list, text, failing_read, out)
}

#[test]
fn edits_are_dealt_and_flow(rt: HostRuntime) -> Result<(), Fail> {
    let mut text = Vec::new(rt.alloc());
    let told = told(&rt, rt.alloc(), &["relay", "2"], DELETED_WINS, 0, &mut text)?;
    assert_eq!(rt; told, (ToolStatus::Done, Some(2), None));
    assert_eq!(rt;
        text.as_slice(),
        b"sender 1 edits 2\nsender 2 edits 2\n-1.2 0.0 root main 1.1 num:7\n".as_slice()
    );
    Ok(())
}

#[test]
fn nothing_is_dealt_of_an_empty_text(rt: HostRuntime) -> Result<(), Fail> {
    let mut text = Vec::new(rt.alloc());
    let told = told(&rt, rt.alloc(), &["relay", "1"], b"", 0, &mut text)?;
    assert_eq!(rt; told, (ToolStatus::Done, Some(0), None));
    assert_eq!(rt; text.as_slice(), b"sender 1 edits 0\n".as_slice());
    Ok(())
}

// The first read would fail.
#[test]
fn other_numbers_are_usage_and_read_nothing(rt: HostRuntime) -> Result<(), Fail> {
    let mut text = Vec::new(rt.alloc());
    for number in ["0", "9", "01"] {
        text.clear();
        let told = told(
            &rt,
            rt.alloc(),
            &["relay", number],
            DELETED_WINS,
            1,
            &mut text,
        )?;
        assert!(rt; told == (ToolStatus::Usage, None, None));
        assert!(rt; text.as_slice() == USAGE);
    }
    Ok(())
}

#[test]
fn a_read_fault_writes_nothing(rt: HostRuntime) -> Result<(), Fail> {
    let mut text = Vec::new(rt.alloc());
    let told = told(&rt, rt.alloc(), &["relay", "2"], DELETED_WINS, 3, &mut text)?;
    assert_eq!(rt; told, (ToolStatus::ReadFault, None, None));
    assert_eq!(rt; text.as_slice(), b"".as_slice());
    Ok(())
}

#[test]
fn edits_are_kept_in_a_log(rt: HostRuntime) -> Result<(), Fail> {
    let mut text = Vec::new(rt.alloc());
    let told = told(&rt, rt.alloc(), &["keep"], DELETED_WINS, 0, &mut text)?;
    assert_eq!(rt; told, (ToolStatus::Done, None, Some(4)));
    assert_eq!(rt;
        text.as_slice(),
        b"-1.2 0.0 root main 1.1 num:7\n".as_slice()
    );
    Ok(())
}
