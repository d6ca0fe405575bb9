ghost use Rattle.std.specs.Prelude.{◌≡◌, ◌+◌, ◌%◌, ◌^◌, ◌<◌, [], ◌∷◌, length, IfOk};
ghost use Rattle.std.specs.List.{AllByRecursion};
ghost use Rattle.grove_edits.specs.declared.answer.Answer.TheVariants.{Done};
ghost use Rattle.grove_edits.specs.Graph.{Ascends};
ghost use Rattle.edge_board.specs.Seats.{BoardOf};
ghost use Rattle.author_desk.specs.Cuts.{CanRaise, HasPartsFor};
ghost use Rattle.session_script.specs.Session.{IsSession};

use crate::counter::Counter;
use author_desk::Cuts;
use edge_board::{Board, BoardSeat};
use edge_lattice::State;
use graph_words::Steps;
use grove_edits::{Action, Actor, Answer, Command, EditList};
use grove_io::{Gate, OpenGate};
use session_run::*;
use session_script::{Item, Session, read_session};
use shared_replica::{Journal, Machine, NoMemory as NoRoom};
use std::alloc::Global;
use std::marker::{Brand, PhantomData};
use std::sync::atomic::{AtomicU64, Ordering};
use std::sync::ledger::Ledger;
use std::sync::{Mutex, Wait};
use std::test::Fail;
use std::thread::{self, Threads};

// A block in which both authors act and one replica sends, and then the edits that it sends.
const SESSION: &[u8] =
    b"session\nreplica a\nreplica b\nauthor 1 a\nauthor 2 b\nblock\n1 cut 1.2\nsend a b skip 0 take 9 reverse once cut 60\n2 cut 2.3\n1 cut 1.4\nend\nload a -2.2 3.1 plus left 2.1 num:2\nload a +3.2 0.0 root main 3.1 plus\nload a +3.4 3.1 plus right 3.3 true\n";

// The edits that the session loads.
fn loaded(alloc: Global, session: &Session) -> Result<EditList, Fail> {
    let mut edits = EditList::new(alloc);
    for item in session.items.as_slice() {
        if let Item::Load { edit, .. } = item {
            edits.push(*edit)?;
        }
    }
    Ok(edits)
}

// A session with two replicas and two authors.
fn session_of(alloc: Global, text: &[u8]) -> Result<Session, Fail>
    ensures session { IfOk result (λ session. IsSession session) }
    ensures two { IfOk result (λ session. (length session.replicas ≡ 2) × (length session.authors ≡ 2)) }
{
    let Ok(session) = read_session(alloc, text) else {
        return Err(Fail::from("a session"));
    };
    if session.replicas.len() != 2 || session.authors.len() != 2 {
        return Err(Fail::from("two replicas and two authors"));
    }
    Ok(session)
}

// What the replicas open with: the edits that the session loads, and none.
fn sources_of(alloc: Global, session: &Session) -> Result<Vec<EditList>, Fail>
    ensures { IfOk result (λ sources. AllByRecursion Ascends sources.items × (length sources.items ≡ 2)) }
{
    let edits = loaded(alloc, session)?.into_canonical();
    Ok(vec![in alloc; edits, EditList::new(alloc)]?)
}

// Two machines that have not counted yet.
fn counters(alloc: Global) -> Result<Vec<Counter>, NoMemory>
    ensures { IfOk result (λ machines. length machines.items ≡ 2) }
{
    Ok(vec![in alloc; Counter { steps: 0 }, Counter { steps: 0 }]?)
}

// What two machines journal of the session's first item, if it is a block.
fn journals_of<R: Threads + Wait + Sync, M: Machine<Command = Command, Reply = Answer>, G: Gate>(
    rt: &R,
    alloc: Global,
    session: &Session,
    machines: Vec<M>,
    sources: &[EditList],
    cuts: &mut Vec<Cuts<'_>>,
    gate: &G,
) -> Result<Vec<Journal<M>>, Fail>
    requires session { IsSession session.now }
    requires machines { length machines.items ≡ 2 }
    requires replicas { length session.now.replicas ≡ 2 }
    requires authors { length session.now.authors ≡ 2 }
    requires sources { length sources.now ≡ 2 }
    requires cuts { length cuts.old.items ≡ 2 }
    requires boards { AllByRecursion (λ own. CanRaise own × HasPartsFor 2 own) cuts.old.items }
{
    let Some(Item::Block(block)) = session.items.get(0) else {
        return Err(Fail::from("a block"));
    };
    if block.lines.len() > 100 {
        return Err(Fail::from("few lines"));
    }
    let first_calls = [1, 1];
    let (_, journals) = run_block(
        rt,
        alloc,
        machines,
        sources,
        &session.authors,
        block,
        1,
        &first_calls,
        cuts,
        gate,
    )?;
    Ok(journals)
}

// A replica that opened with three edges, at a board of as many slots, and one that opened without edges.
fn cuts_at<'a>(
    alloc: Global,
    sources: &'a [EditList],
    board: &'a Board,
    seat: BoardSeat,
) -> Result<Vec<Cuts<'a>>, Fail>
    requires sources { AllByRecursion Ascends sources.now × (length sources.now ≡ 2) }
    requires board { seat.board ≡ board.now }
    requires slots { length board.now.opening ≡ 3 }
    requires parts { 2 < seat.parts }
    ensures two { IfOk result (λ cuts. length cuts.items ≡ 2) }
    ensures boards { IfOk result (λ cuts. AllByRecursion (λ own. CanRaise own × HasPartsFor 2 own) cuts.items) }
{
    let [opening, other] = sources else {
        unreachable!()
    };
    if opening.len() != 3 || !other.is_empty() {
        return Err(Fail::from("three edges and none"));
    }
    let mut cuts = Vec::with_capacity(alloc, 2)?;
    cuts.push(Cuts::On {
        opening,
        board,
        seat,
    })?;
    cuts.push(Cuts::Empty)?;
    Ok(cuts)
}

// What two machines journal of the block, where the edges of the first replica open in these states.
fn journals_at<R: Threads + Wait + Sync, M: Machine<Command = Command, Reply = Answer>, G: Gate>(
    rt: &R,
    alloc: Global,
    session: &Session,
    machines: Vec<M>,
    sources: &[EditList],
    states: [State; 3],
    gate: &G,
) -> Result<Vec<Journal<M>>, Fail>
    requires session { IsSession session.now }
    requires machines { length machines.items ≡ 2 }
    requires two { (length session.now.replicas ≡ 2) × (length session.now.authors ≡ 2) }
    requires sources { AllByRecursion Ascends sources.now × (length sources.now ≡ 2) }
{
    let (board, seat) = Board::new(alloc, &states, 3)?;
    let mut cuts = cuts_at(alloc, sources, &board, seat)?;
    journals_of(rt, alloc, session, machines, sources, &mut cuts, gate)
}

// What an actor's call of this index among its own asks: the number of the edge that is cut or of the piece, and that of its edits.
fn shown(
    journals: &[Journal<Counter>],
    replica: usize,
    actor: Actor,
    index: usize,
) -> Option<(u64, usize)> {
    let journal = journals.get(replica)?;
    let mut calls = journal
        .as_slice()
        .iter()
        .filter(|entry| entry.actor == actor);
    match &calls.nth(index)?.command {
        Command::Act(Action::Cut { edge }) => Some((edge.counter, 0)),
        Command::Act(_) => None,
        Command::Take { piece, edits, .. } => Some((*piece, edits.len())),
    }
}

// Whether each author's lines and each piece stand in the journals of the replicas where they belong, and no others.
fn are_where_they_belong(journals: &[Journal<Counter>]) -> bool {
    for (replica, actor, index, want) in [
        (0, Actor::Author(1), 0, Some((2, 0))),
        (0, Actor::Author(1), 1, Some((4, 0))),
        (0, Actor::Author(1), 2, None),
        (0, Actor::Author(2), 0, None),
        (0, Actor::Send(1), 0, None),
        (1, Actor::Author(2), 0, Some((3, 0))),
        (1, Actor::Author(2), 1, None),
        (1, Actor::Send(1), 0, Some((1, 2))),
        (1, Actor::Send(1), 1, Some((2, 1))),
        (1, Actor::Send(1), 2, None),
    ] {
        if shown(journals, replica, actor, index) != want {
            return false;
        }
    }
    journals.len() == 2
}

#[test]
fn authors_act_and_pieces_come_where_they_belong(rt: HostRuntime) -> Result<(), Fail> {
    let session = session_of(rt.alloc(), SESSION)?;
    let sources = sources_of(rt.alloc(), &session)?;
    let machines = counters(rt.alloc())?;
    let states = [State::Deleted, State::Live, State::Live];
    let journals = journals_at(
        &rt,
        rt.alloc(),
        &session,
        machines,
        &sources,
        states,
        &OpenGate,
    )?;
    assert!(rt; are_where_they_belong(&journals));
    Ok(())
}

// A block in which two authors act and all edits of a replica are sent to it and to the other one.
const SENDING: &[u8] =
    b"session\nreplica a\nreplica b\nauthor 1 a\nauthor 2 b\nblock\n1 cut 1.2\n2 cut 2.2\nsend a a skip 0 take 9 forward once cut 65536\nsend a b skip 0 take 9 forward once cut 65536\nend\nload a +3.2 0.0 root main 3.1 plus\nload a +3.4 3.1 plus left 3.3 num:7\nload a +3.6 3.1 plus right 3.5 num:8\n";

// Two authors and two sends, each of which holds until all others are at work.
const AT_WORK: u64 = 0b1111;

/// Who was seen at work, and who has seen all others so.
#[derive(Drop)]
struct Meeting {
    came: AtomicU64,
    met: AtomicU64,
}

impl Meeting {
    // Whether all are at work, now that this one is.
    fn come(&self, own: u64) -> bool {
        let all = self.came.fetch_or(own, Ordering::SeqCst) | own == AT_WORK;
        if all {
            self.met.fetch_or(own, Ordering::SeqCst);
        }
        all
    }

    // Waits for all, and gives up after very many times.
    fn wait(&self, own: u64) {
        for _ in 0..1_000_000u64 {
            if self.come(own) {
                return;
            }
            thread::yield_now();
        }
    }
}

impl Gate for Meeting {
    fn ready(&self, author: u32, _call: u64) -> bool {
        self.come(1u64.rotate_left(author % 2))
    }
}

/// A counter whose steps wait, where they take edits, until all are at work.
#[derive(Drop)]
struct Waiting<'a> {
    steps: u64,
    own: u64,
    meeting: &'a Meeting,
}

impl<'a> Machine for Waiting<'a> {
    type Command = Command;

    type Effect = u64;

    type Reply = Answer;

    ghost after = { λ waiting _ _. record waiting { steps = (waiting.steps + 1) % 2 ^ 64 } };

    ghost effect = { λ waiting _ _. waiting.steps };

    ghost reply = { λ _ _ _. Done };

    ghost cost = { λ _ _ _. 0 };

    fn step<L: Ledger>(
        &mut self,
        _alloc: Global,
        _actor: Actor,
        command: &Command,
        _steps: &mut Steps<L>,
    ) -> Result<(u64, Answer), NoRoom> {
        if let Command::Take { .. } = command {
            self.meeting.wait(self.own);
        }
        let before = self.steps;
        self.steps = before.wrapping_add(1);
        Ok((before, Answer::Done))
    }
}

// Two such machines, by whom they are seen at work.
fn waiting_machines(alloc: Global, meeting: &Meeting) -> Result<Vec<Waiting<'_>>, NoMemory>
    ensures { IfOk result (λ machines. length machines.items ≡ 2) }
{
    Ok(vec![in alloc; waiting_as(0b100, meeting), waiting_as(0b1000, meeting)]?)
}

fn waiting_as(own: u64, meeting: &Meeting) -> Waiting<'_> {
    Waiting {
        steps: 0,
        own,
        meeting,
    }
}

// Whether both journals have two entries.
fn have_two_entries(journals: &[Journal<Waiting<'_>>]) -> bool {
    match journals {
        [first, second] => first.len() == 2 && second.len() == 2,
        _ => false,
    }
}

#[test]
fn authors_and_sends_of_all_replicas_are_at_work_at_once(rt: HostRuntime) -> Result<(), Fail> {
    let session = session_of(rt.alloc(), SENDING)?;
    let sources = sources_of(rt.alloc(), &session)?;
    let meeting = Meeting {
        came: AtomicU64::new(0),
        met: AtomicU64::new(0),
    };
    let machines = waiting_machines(rt.alloc(), &meeting)?;
    let states = [State::Live, State::Live, State::Live];
    let journals = journals_at(
        &rt,
        rt.alloc(),
        &session,
        machines,
        &sources,
        states,
        &meeting,
    )?;
    assert!(rt; have_two_entries(&journals));
    assert!(rt; meeting.met.load(Ordering::SeqCst) == AT_WORK);
    Ok(())
}

// A block in which an author cuts both children of `3.1 plus` and makes another one at its left, after the edits that add them.
const CUTTING: &[u8] =
    b"session\nreplica a\nreplica b\nauthor 1 a\nauthor 2 a\nblock\n1 cut 3.4\n1 cut 3.6\n1 construct 3.1 left num:1\n2 construct 0.0 main num:2\nend\nload a +3.2 0.0 root main 3.1 plus\nload a +3.4 3.1 plus left 3.3 num:7\nload a +3.6 3.1 plus right 3.5 num:8\n";

// Which board a watch is at. Each call of a program picks it.
trait Naming {
    ghost board: { BoardOf };
}

impl Naming for Brand {
    ghost board = { record { table = record { words = 0; slots = 0; views_name = 0; atom = 0; block = 0; offset = 0; slot_names = [] }; parts = 0; opening = [] } };
}

// A seat that can lie under a lock.
#[derive(Drop)]
struct Watch<B: Naming> {
    seat: BoardSeat,
    of: PhantomData<B>,
    ghost at: { seat.board ≡ B.board },
}

/// Lets each call of author 1 start once just the slots that its calls before cut are Deleted. It keeps which of them it let start, and how
/// often it was asked for them.
#[derive(Drop)]
struct Watching<'a, B: Naming> {
    board: &'a Board,
    watch: Mutex<Watch<B>>,
    started: AtomicU64,
    asks: AtomicU64,
    ghost at: { board.now ≡ B.board },
    ghost slots: { 2 < length board.now.opening },
}

impl<'a, B: Naming + Send + Sync> Gate for Watching<'a, B> {
    fn ready(&self, author: u32, call: u64) -> bool {
        if author != 1 {
            return true;
        }
        self.asks.fetch_add(1, Ordering::SeqCst);
        let Some(mut watch) = self.watch.try_lock() else {
            return false;
        };
        let left = self.board.read(&mut watch.seat, 1) == State::Deleted;
        let right = self.board.read(&mut watch.seat, 2) == State::Deleted;
        let is_due = left == (1 < call) && right == (2 < call);
        if is_due {
            let own = 1u64.rotate_left((call % 64) as u32);
            self.started.fetch_or(own, Ordering::SeqCst);
        }
        is_due
    }
}

// The journals that the block leaves, and which calls of author 1 the gate let start, if it let each that it was asked for.
fn cut_as<B: Naming + Send + Sync, R: Threads + Wait + Sync>(
    rt: &R,
    alloc: Global,
    session: &Session,
    sources: &[EditList],
    board: &Board,
    seat: BoardSeat,
    watch: BoardSeat,
) -> Result<(Vec<Journal<Counter>>, u64), Fail>
    requires session { IsSession session.now }
    requires replicas { length session.now.replicas ≡ 2 }
    requires authors { length session.now.authors ≡ 2 }
    requires sources { AllByRecursion Ascends sources.now × (length sources.now ≡ 2) }
    requires board { (board.now ≡ B.board) × (seat.board ≡ B.board) × (watch.board ≡ B.board) }
    requires parts { 2 < seat.parts }
    requires slots { length board.now.opening ≡ 3 }
{
    let gate = Watching::<B> {
        board,
        watch: Mutex::new(Watch::<B> {
            seat: watch,
            of: PhantomData,
        }),
        started: AtomicU64::new(0),
        asks: AtomicU64::new(0),
    };
    let mut cuts = cuts_at(alloc, sources, board, seat)?;
    let machines = counters(alloc)?;
    let journals = journals_of(rt, alloc, session, machines, sources, &mut cuts, &gate)?;
    if gate.asks.load(Ordering::SeqCst) >= 1_000_000 {
        return Err(Fail::from("a gate that is ready at last"));
    }
    Ok((journals, gate.started.load(Ordering::SeqCst)))
}

// The same, at a board that is made for it.
fn cut<R: Threads + Wait + Sync>(
    rt: &R,
    alloc: Global,
    session: &Session,
) -> Result<(Vec<Journal<Counter>>, u64), Fail>
    requires session { IsSession session.now }
    requires replicas { length session.now.replicas ≡ 2 }
    requires authors { length session.now.authors ≡ 2 }
{
    let sources = sources_of(alloc, session)?;
    let states = [State::Live, State::Live, State::Live];
    let (board, mut seat) = Board::new(alloc, &states, 4)?;
    let watch = board.split(&mut seat);
    cut_as::<Brand, R>(rt, alloc, session, &sources, &board, seat, watch)
}

// Whether the entry at an index is author 1's, and the cut of an edge of author 3's.
fn is_cut(journal: &Journal<Counter>, index: usize, counter: u64) -> bool {
    let Some(entry) = journal.get(index) else {
        return false;
    };
    match entry.command {
        Command::Act(Action::Cut { edge }) => {
            entry.actor == Actor::Author(1) && edge.author == 3 && edge.counter == counter
        }
        Command::Act(_) | Command::Take { .. } => false,
    }
}

// Whether both cuts stand one behind the other, in a journal of four entries.
fn are_cuts_together(journals: &[Journal<Counter>]) -> bool {
    let [journal, _] = journals else {
        return false;
    };
    // Author 2's entry is before the three of author 1, or behind them.
    let first = if is_cut(journal, 0, 4) { 0 } else { 1 };
    journal.len() == 4
        && is_cut(journal, first, 4)
        && is_cut(journal, first + 1, 6)
        && shown(journals, 0, Actor::Author(1), 0) == Some((4, 0))
        && shown(journals, 0, Actor::Author(1), 1) == Some((6, 0))
}

#[test]
fn cut_before_turn(rt: HostRuntime) -> Result<(), Fail> {
    let session = session_of(rt.alloc(), CUTTING)?;
    let (journals, started) = cut(&rt, rt.alloc(), &session)?;
    assert!(rt; started == 0b1110);
    assert!(rt; are_cuts_together(&journals));
    Ok(())
}
