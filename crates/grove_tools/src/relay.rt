ghost use Rattle.std.specs.Prelude.{◌≡◌, ◌+◌, ◌*◌, ◌<◌, ◌^◌, ◌≤◌, ◌++◌, ℕ, List, [], Some, length, IfOk, IfErr, OnOk};
ghost use Rattle.grove_edits.specs.declared.edit.Edit.{Edit};
ghost use Rattle.grove_edits.specs.Graph.{graph};
ghost use Rattle.grove_answers.specs.Texts.{IsCanonicalText};
ghost use Rattle.shared_replica.specs.Solos.{Replays};
ghost use Rattle.edit_runs.specs.Gathering.{after, effect, reply};
ghost use Rattle.edit_runs.specs.Runs.{AreEntriesInRuns};
ghost use Rattle.grove_calls.specs.Due.{IsRefusal, most_bytes};
ghost use Rattle.grove_tools.specs.declared.tool.Tool.TheVariants.{Relay};
ghost use Rattle.grove_tools.specs.Due.{tool_rules};
ghost use Rattle.grove_tools.specs.Relay.{AreDealt, AreDealtOf, HasFlowed, IsRelayed, dealt_to, sender_line, sender_lines};

use crate::outcome::Handed;
use edit_runs::{Gathering, relay_in_runs};
use grove_calls::{Formed, Refusal, read_edits};
use grove_edits::{Edit, EditList};
use shared_edits::SharedEdits;
use shared_replica::Journal;
use std::alloc::Global;
use std::sync::Wait;
use std::thread::Threads;
use text_parts::{NoMemory, write_number};

/// How many runs of edits the queue of the relay has room for.
const ROOM: usize = 64;

/// Lets the edits of a text flow from so many senders to a machine that gathers them.
pub(crate) fn form_relay<R: Threads + Wait + Sync>(
    rt: &R,
    alloc: Global,
    senders: u32,
    text: &[u8],
) -> Result<Formed<Handed>, Refusal>
    requires senders { (1 ≤ senders) × (senders ≤ 8) }
    requires short { length text.now ≤ most_bytes }
    ensures answered { IfOk result (λ formed. IsRelayed senders text.now formed.handed formed.text.items) }
    ensures refused { IfErr result (IsRefusal tool_rules (Relay senders) text.now) }
{
    let lists = read_and_deal(alloc, senders, text)?;
    Ok(flow(rt, alloc, &lists)?)
}

// The edits of a text, dealt to so many senders.
fn read_and_deal(alloc: Global, senders: u32, text: &[u8]) -> Result<Vec<SharedEdits>, Refusal>
    requires senders { 1 ≤ senders }
    requires short { length text.now ≤ most_bytes }
    ensures dealt { IfOk result (λ lists. AreDealtOf senders text.now lists.items) }
    ensures refused { IfErr result (IsRefusal tool_rules (Relay senders) text.now) }
{
    let edits = read_edits(alloc, text)?;
    Ok(deal(alloc, senders, &edits)?)
}

// What is formed once the lists flowed to an empty machine.
fn flow<R: Threads + Wait + Sync>(
    rt: &R,
    alloc: Global,
    lists: &[SharedEdits],
) -> Result<Formed<Handed>, NoMemory>
    requires { (1 ≤ length lists.now) × (length lists.now ≤ 8) }
    ensures { IfOk result (λ formed. HasFlowed lists.now formed.handed formed.text.items) }
{
    let (gathered, journal) = relayed(rt, alloc, lists)?;
    formed(alloc, lists, &gathered, journal)
}

// What is formed of a machine to which the lists flowed, and of its journal.
fn formed(
    alloc: Global,
    lists: &[SharedEdits],
    gathered: &Gathering,
    journal: Journal<Gathering>,
) -> Result<Formed<Handed>, NoMemory>
    requires entries { AreEntriesInRuns lists.now journal }
    requires replays { Replays after effect reply [] journal gathered.now }
    ensures { IfOk result (λ formed. HasFlowed lists.now formed.handed formed.text.items) }
{
    let text = written(alloc, lists, gathered)?;
    Ok(Formed {
        text,
        handed: Handed {
            relayed: Some(journal),
            kept: None,
        },
    })
}

// The edits of each sender: they are dealt in turn.
fn deal(alloc: Global, senders: u32, edits: &EditList) -> Result<Vec<SharedEdits>, NoMemory>
    requires { 1 ≤ senders }
    ensures { IfOk result (λ lists. AreDealt senders edits.now lists.items) }
{
    let mut lists = Vec::with_capacity(alloc, senders as usize)?;
    for sender in 0..senders {
        lists.push_reserved(edits_of(alloc, senders, sender, edits.as_slice())?);
    }
    Ok(lists)
}

fn edits_of(
    alloc: Global,
    senders: u32,
    sender: u32,
    edits: &[Edit],
) -> Result<SharedEdits, NoMemory>
    requires { 1 ≤ senders }
    ensures { IfOk result (λ list. list ≡ dealt_to senders sender 0 edits.now) }
{
    let mut list = EditList::new(alloc);
    list.reserve(edits.len() / senders as usize + 1)?;
    for (number, edit) in edits.iter().enumerate() {
        if number % senders as usize == sender as usize {
            list.push(*edit)?;
        }
    }
    SharedEdits::new(alloc, list)
}

// An empty machine to which the lists flowed, and its journal.
fn relayed<R: Threads + Wait + Sync>(
    rt: &R,
    alloc: Global,
    lists: &[SharedEdits],
) -> Result<(Gathering, Journal<Gathering>), NoMemory>
    requires { (1 ≤ length lists.now) × (length lists.now ≤ 8) }
    ensures entries { IfOk result (λ ran. AreEntriesInRuns lists.now ran.1) }
    ensures replays { IfOk result (λ ran. Replays after effect reply [] ran.1 ran.0) }
{
    relay_in_runs(rt, alloc, Gathering::new(alloc), lists, ROOM)
}

// How many edits each sender has, and the canonical text of the machine.
fn written(alloc: Global, lists: &[SharedEdits], gathered: &Gathering) -> Result<Vec<u8>, NoMemory>
    ensures { IfOk result (λ text. (canonical : List ℕ) × IsCanonicalText (graph gathered.now) canonical × (text.items ≡ sender_lines 1 lists.now ++ canonical)) }
{
    let mut text = sender_text(alloc, lists)?;
    gathered.canonical(alloc, &mut text)?;
    Ok(text)
}

fn sender_text(alloc: Global, lists: &[SharedEdits]) -> Result<Vec<u8>, NoMemory>
    ensures { IfOk result (λ text. text.items ≡ sender_lines 1 lists.now) }
{
    let mut text = Vec::new(alloc);
    for (index, list) in lists.iter().enumerate() {
        append_sender(index as u64 + 1, list, &mut text)?;
    }
    Ok(text)
}

fn append_sender(number: u64, list: &SharedEdits, out: &mut Vec<u8>) -> Result<(), NoMemory>
    ensures { OnOk result (out.new.items ≡ out.old.items ++ sender_line number list.now) }
{
    out.extend_from_slice(b"sender ")?;
    write_number(number, out)?;
    out.extend_from_slice(b" edits ")?;
    write_number(list.len() as u64, out)?;
    out.extend_from_slice(b"\n")?;
    Ok(())
}
