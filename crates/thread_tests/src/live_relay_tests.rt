ghost use Rattle.std.specs.Prelude.{◌≡◌, ◌+◌, ◌%◌, ◌^◌, ◌≤◌, ◌++◌, OnOk, take};
ghost use Rattle.grove_edits.specs.declared.answer.Answer.TheVariants.{Done};
ghost use Rattle.live_relay.specs.Seats.{after_send};

use graph_words::Steps;
use grove_edits::{Actor, Answer, Command, Edge, Edit, Vertex};
use grove_names::Name;
use grove_sorts::{Ctor, Position};
use live_relay::{Items, NoMemory, Receiver, Relay, Sender, run_relay};
use shared_replica::{Journal, Machine, NoMemory as NoRoom};
use std::alloc::Global;
use std::sync::Wait;
use std::sync::ledger::Ledger;
use std::test::Fail;
use std::thread::{self, Threads, join};
use std::time::{Clock, Instant};

/// Counts its steps, and tells before each how many there were. It has room for so many, and no memory for more.
#[derive(Drop)]
struct Counter {
    steps: u64,
    room: u64,
}

impl Machine for Counter {
    type Command = Command;

    type Effect = u64;

    type Reply = Answer;

    ghost after = { λ counter _ _. record counter { steps = (counter.steps + 1) % 2 ^ 64 } };

    ghost effect = { λ counter _ _. counter.steps };

    ghost reply = { λ _ _ _. Done };

    ghost cost = { λ _ _ _. 0 };

    fn step<L: Ledger>(
        &mut self,
        _alloc: Global,
        _actor: Actor,
        _command: &Command,
        _steps: &mut Steps<L>,
    ) -> Result<(u64, Answer), NoRoom> {
        if self.steps == self.room {
            return Err(NoRoom);
        }
        let before = self.steps;
        self.steps = before.wrapping_add(1);
        Ok((before, Answer::Done))
    }
}

// The insertion of a number below the root, by an author who has made so many names.
fn insertion(author: u32, counter: u64) -> Result<Edit, Fail> {
    let name = Name { author, counter };
    Ok(Edit::insert(Edge {
        name,
        source: Vertex::ROOT,
        position: Position::Main,
        target: Vertex {
            name,
            ctor: Ctor::Num(counter),
        },
    })?)
}

// So many edits of an author.
fn edits(alloc: Global, author: u32, many: u64) -> Result<Items<Edit>, Fail> {
    let mut edits = Items::new(alloc);
    for before in 0..many {
        edits.push(insertion(author, before + 1)?)?;
    }
    Ok(edits)
}

// One try to send an edit.
fn try_one<R: Wait>(
    rt: &R,
    relay: &Relay<Edit>,
    sender: &mut Sender<Edit>,
    edit: Edit,
) -> Result<(), Edit>
    requires { sender.old.relay ≡ relay.now }
    ensures { (sender.new.relay ≡ sender.old.relay) × (sender.new.number ≡ sender.old.number) }
{
    relay.try_send(rt, sender, edit)
}

// One try to take an edit.
fn take_one<R: Wait>(
    rt: &R,
    relay: &Relay<Edit>,
    receiver: &mut Receiver<Edit>,
) -> Option<(u32, Edit)>
    requires { receiver.old.relay ≡ relay.now }
    ensures { receiver.new.relay ≡ receiver.old.relay }
{
    relay.try_take(rt, receiver)
}

// Whether a queue with room for one edit has none at first, gives the second one back while it has the first, and takes it again once the
// first is taken.
fn gives_back<R: Wait>(
    rt: &R,
    relay: &Relay<Edit>,
    sender: &mut Sender<Edit>,
    receiver: &mut Receiver<Edit>,
    first: &Edit,
    second: &Edit,
) -> bool
    requires { (sender.old.relay ≡ relay.now) × (receiver.old.relay ≡ relay.now) }
    ensures { (sender.new.relay ≡ sender.old.relay) × (sender.new.number ≡ sender.old.number) × (receiver.new.relay ≡ relay.now) }
{
    let none = take_one(rt, relay, receiver);
    let sent = try_one(rt, relay, sender, *first);
    let back = try_one(rt, relay, sender, *second);
    let taken = take_one(rt, relay, receiver);
    let again = try_one(rt, relay, sender, *second);
    none == None
        && sent == Ok(())
        && back == Err(*second)
        && taken == Some((1, *first))
        && again == Ok(())
}

// Whether it does, and how many edits are left then.
fn left_in_a_full_queue<R: Wait>(
    rt: &R,
    alloc: Global,
    first: &Edit,
    second: &Edit,
) -> Result<(bool, u64), NoMemory> {
    let (relay, mut senders, mut receiver) = Relay::new(alloc, 1, 1)?;
    let Some(mut sender) = senders.pop() else {
        unreachable!()
    };
    let are = gives_back(rt, &relay, &mut sender, &mut receiver, first, second);
    senders.push_reserved(sender);
    let left = relay.close(rt, senders, receiver);
    Ok((are, left))
}

#[test]
fn a_full_queue_gives_the_edit_back(rt: HostRuntime) -> Result<(), Fail> {
    let (first, second) = (insertion(1, 1)?, insertion(1, 2)?);
    let left = left_in_a_full_queue(&rt, rt.alloc(), &first, &second)?;
    assert_eq!(rt; left, (true, 1));
    Ok(())
}

/// How many seconds a worker tries before it gives up, so that the test ends in any case.
const TIME_LIMIT: u64 = 20;

// Whether the time of a test that began then is over.
fn is_over<R: Clock>(rt: &R, begun: Instant) -> bool {
    match begun.elapsed(rt) {
        Ok(elapsed) => TIME_LIMIT <= elapsed.as_secs(),
        Err(_) => true,
    }
}

// Sends all edits, each again until there is room or the time is over.
fn send_all<R: Wait + Clock>(
    rt: &R,
    relay: &Relay<Edit>,
    begun: Instant,
    mut sender: Sender<Edit>,
    edits: &[Edit],
) -> Sender<Edit>
    requires { sender.relay ≡ relay.now }
    ensures { (result.relay ≡ relay.now) × (result.number ≡ sender.number) }
{
    for edit in edits {
        for _ in rt.forever() {
            if relay.try_send(rt, &mut sender, *edit).is_ok() {
                break;
            }
            if is_over(rt, begun) {
                return sender;
            }
            thread::yield_now();
        }
    }
    sender
}

// Takes until so many edits of each sender came or the time is over, and tells whether they were these, in order.
fn take_all<R: Wait + Clock>(
    rt: &R,
    relay: &Relay<Edit>,
    begun: Instant,
    mut receiver: Receiver<Edit>,
    first: &[Edit],
    second: &[Edit],
) -> (Receiver<Edit>, bool)
    requires { receiver.relay ≡ relay.now }
    ensures { result.0.relay ≡ relay.now }
{
    let mut are = true;
    let (mut of_first, mut of_second) = (0, 0);
    for _ in rt.forever() {
        if (of_first == first.len() && of_second == second.len()) || is_over(rt, begun) {
            break;
        }
        match relay.try_take(rt, &mut receiver) {
            None => thread::yield_now(),
            Some((1, edit)) => {
                are = are && first.get(of_first) == Some(&edit);
                of_first = of_first.saturating_add(1).min(first.len());
            }
            Some((_, edit)) => {
                are = are && second.get(of_second) == Some(&edit);
                of_second = of_second.saturating_add(1).min(second.len());
            }
        }
    }
    (receiver, are)
}

// What arrives of two senders, each in a thread of its own, and how many edits are left at the end.
fn arrives<R: Threads + Wait + Clock + Sync>(
    rt: &R,
    alloc: Global,
    begun: Instant,
    first: &[Edit],
    second: &[Edit],
) -> Result<(bool, u64), NoMemory> {
    let (relay, mut senders, mut receiver) = Relay::new(alloc, 2, 3)?;
    let (Some(two), Some(one)) = (senders.pop(), senders.pop()) else {
        unreachable!()
    };
    let relay_of = &relay;
    let (one, (two, (receiver, are))) = join(
        rt,
        || -> Sender<Edit>
            requires { one.relay ≡ relay_of.now }
            ensures { (result.relay ≡ relay_of.entry.now) × (result.number ≡ one.number) }
        { send_all(rt, relay_of, begun, one, first) },
        || -> (Sender<Edit>, (Receiver<Edit>, bool))
            requires { (two.relay ≡ relay_of.now) × (receiver.relay ≡ relay_of.now) }
            ensures { (result.0.relay ≡ relay_of.entry.now) × (result.0.number ≡ two.number) × (result.1.0.relay ≡ relay_of.entry.now) }
        {
            join(
                rt,
                || -> Sender<Edit>
                    requires { two.relay ≡ relay_of.now }
                    ensures { (result.relay ≡ relay_of.entry.now) × (result.number ≡ two.number) }
                { send_all(rt, relay_of, begun, two, second) },
                || -> (Receiver<Edit>, bool)
                    requires { receiver.relay ≡ relay_of.now }
                    ensures { result.0.relay ≡ relay_of.entry.now }
                { take_all(rt, relay_of, begun, receiver, first, second) },
            )
        },
    );
    senders.push_reserved(one);
    senders.push_reserved(two);
    let left = relay.close(rt, senders, receiver);
    Ok((are, left))
}

#[test]
fn two_senders_fifo(rt: HostRuntime) -> Result<(), Fail> {
    let first = edits(rt.alloc(), 1, 300)?;
    let second = edits(rt.alloc(), 2, 200)?;
    let begun = Instant::now(&rt)?;
    let arrived = arrives(&rt, rt.alloc(), begun, first.as_slice(), second.as_slice())?;
    assert_eq!(rt; arrived, (true, 0));
    Ok(())
}

// Whether the journal has the edits as pieces of a send, each once and in order, in so many of its entries.
fn are_pieces(journal: &Journal<Counter>, send: u32, edits: &[Edit]) -> bool {
    let mut places = 0usize;
    for entry in journal.as_slice() {
        if entry.actor != Actor::Send(send) {
            continue;
        }
        let Command::Take {
            piece,
            bytes,
            edits: taken,
        } = &entry.command
        else {
            return false;
        };
        if *piece != (places as u64).wrapping_add(1)
            || !bytes.as_slice().is_empty()
            || taken.len() != 1
        {
            return false;
        }
        if taken.as_slice().first() != edits.get(places) {
            return false;
        }
        places = places.wrapping_add(1);
    }
    places == edits.len()
}

#[test]
fn lists_flow_to_a_machine(rt: HostRuntime) -> Result<(), Fail> {
    let first = edits(rt.alloc(), 1, 100)?;
    let second = edits(rt.alloc(), 2, 0)?;
    let third = edits(rt.alloc(), 3, 150)?;
    let machine = Counter {
        steps: 0,
        room: 250,
    };
    let lists = vec![in rt.alloc(); first, second, third]?;
    let (counter, journal) = run_relay(&rt, rt.alloc(), machine, &lists, 2)?;
    assert_eq!(rt; counter.steps, 250);
    assert_eq!(rt; journal.len(), 250);
    for (index, list) in lists.iter().enumerate() {
        assert!(rt; are_pieces(&journal, index as u32 + 1, list.as_slice()));
    }
    Ok(())
}

#[test]
fn senders_end_where_memory_runs_out(rt: HostRuntime) -> Result<(), Fail> {
    let lists = vec![in rt.alloc(); edits(rt.alloc(), 1, 40)?, edits(rt.alloc(), 2, 40)?]?;
    let machine = Counter { steps: 0, room: 7 };
    assert!(rt; run_relay(&rt, rt.alloc(), machine, &lists, 1).is_err());
    Ok(())
}
