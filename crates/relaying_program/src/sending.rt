ghost use Rattle.std.specs.Prelude.{◌≡◌, ◌≤◌, length, IfOk};

use crate::counting::Counting;
use edit_runs::relay_in_runs;
use grove_edits::{Edge, Edit, EditList, Vertex};
use grove_names::Name;
use grove_sorts::{Ctor, Position};
use shared_edits::SharedEdits;
use std::alloc::Global;
use std::rt::Clock;
use std::sync::Wait;
use std::thread::Threads;
use std::time::Instant;
use text_parts::NoMemory;

/// How many runs the queue has room for.
const ROOM: usize = 64;

// The insertion of a number below the root, which any number can be.
fn insertion(author: u32, counter: u64) -> Option<Edit> {
    let name = Name { author, counter };
    let target = Vertex {
        name,
        ctor: Ctor::Num(counter),
    };
    Edit::insert(Edge {
        name,
        source: Vertex::ROOT,
        position: Position::Main,
        target,
    })
    .ok()
}

// So many edits of an author.
fn edits_of(alloc: Global, author: u32, many: u64) -> Result<SharedEdits, NoMemory> {
    let mut edits = EditList::new(alloc);
    edits.reserve(many as usize)?;
    for before in 0..many {
        let Some(edit) = insertion(author, before + 1) else {
            return Err(NoMemory);
        };
        edits.push(edit)?;
    }
    SharedEdits::new(alloc, edits)
}

fn lists_of(alloc: Global, senders: u32, many: u64) -> Result<Vec<SharedEdits>, NoMemory>
    ensures { IfOk result (λ lists. length lists.items ≡ senders) }
{
    let mut lists = Vec::with_capacity(alloc, senders as usize)?;
    for before in 0..senders {
        lists.push(edits_of(alloc, before + 1, many)?)?;
    }
    Ok(lists)
}

// How many microseconds have passed, if the clock tells.
fn passed<R: Clock>(rt: &R, begun: Option<Instant>) -> u64 {
    let Some(begun) = begun else {
        return 0;
    };
    match begun.elapsed(rt) {
        Ok(elapsed) => u64::try_from(elapsed.as_micros()).unwrap_or(u64::MAX),
        Err(_) => 0,
    }
}

/// How many edits were counted, and how many microseconds they took on their way.
pub(crate) fn counted<R: Threads + Wait + Clock + Sync>(
    rt: &R,
    alloc: Global,
    senders: u32,
    many: u64,
) -> Result<(u64, u64), NoMemory>
    requires { (1 ≤ senders) × (senders ≤ 8) }
{
    let lists = lists_of(alloc, senders, many)?;
    let begun = Instant::now(rt).ok();
    let (counting, _journal) = relay_in_runs(rt, alloc, Counting { edits: 0 }, &lists, ROOM)?;
    Ok((counting.edits, passed(rt, begun)))
}
