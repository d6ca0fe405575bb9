ghost use Rattle.std.specs.Prelude.{◌≡◌, ◌≤◌, ◌<◌, ◌+◌, ◌*◌, ◌%◌, ◌^◌, length};

use edge_board::{Board, BoardSeat};
use edge_lattice::State;
use graph_words::Steps;
use grove_edits::Actor;
use shared_replica::{Journal, Machine, NoMemory, NoMemoryWith, Pass, Shared, Solo};
use std::alloc::Global;
use std::sync::Wait;
use std::sync::ledger::Ledger;
use std::test::Fail;
use std::thread;
use std::thread::{Threads, join};

// A number that the machine below has no memory for.
const TOO_MUCH: u64 = u64::MAX;

// Takes so long that whoever waits for its turn meanwhile falls asleep.
fn linger() {
    for _ in 0..20_000u32 {
        thread::yield_now();
    }
}

/// A sum. A command is added to it, and the answer is the sum then. Each five hundredth number takes long.
#[derive(Drop)]
struct Sum {
    total: u64,
}

impl Machine for Sum {
    type Command = u64;

    type Effect = u64;

    type Reply = u64;

    ghost after = { λ sum _ number. record { total = (sum.total + number) % 2 ^ 64 } };

    ghost effect = { λ _ _ number. number };

    ghost reply = { λ sum _ number. (sum.total + number) % 2 ^ 64 };

    ghost cost = { λ _ _ _. 1 };

    fn step<L: Ledger>(
        &mut self,
        _alloc: Global,
        _actor: Actor,
        command: &u64,
        steps: &mut Steps<L>,
    ) -> Result<(u64, u64), NoMemory> {
        if *command == TOO_MUCH {
            return Err(NoMemory);
        }
        if *command % 500 == 0 {
            linger();
        }
        steps.tick();
        self.total = self.total.wrapping_add(*command);
        Ok((*command, self.total))
    }
}

#[test]
fn one_thread_enters_each_command(rt: HostRuntime) -> Result<(), Fail> {
    let Ok(mut solo) = Solo::new(rt.alloc(), Sum { total: 5 }, 2) else {
        panic!(rt; "no memory")
    };
    let Ok(first) = solo.act(rt.alloc(), Actor::Host, 1) else {
        panic!(rt; "no memory")
    };
    let Ok(second) = solo.act(rt.alloc(), Actor::Author(7), 10) else {
        panic!(rt; "no memory")
    };
    let (sum, journal) = solo.close();
    assert!(rt; first == 6 && second == 16 && sum.total == 16 && journal.len() == 2);
    Ok(())
}

// Adds the numbers below 1,000 in order, as the pass's actor. It stops where there is no memory.
fn add_numbers<R: Wait>(
    rt: &R,
    alloc: Global,
    shared: &Shared<Sum>,
    mut pass: Pass<Sum>,
) -> Pass<Sum>
    requires shared { pass.shared ≡ shared.now }
    requires calls { 1000 ≤ pass.calls }
    ensures { (result.shared ≡ shared.now) × (result.parts ≡ pass.parts) }
{
    for number in 0..1000u64 {
        let Ok(_sum) = shared.act(rt, alloc, &mut pass, number) else {
            break;
        };
    }
    pass
}

// Lets so many workers add numbers, each in a thread of its own.
fn add_in_threads<R: Threads + Wait + Sync>(
    rt: &R,
    alloc: Global,
    shared: &Shared<Sum>,
    mut pass: Pass<Sum>,
    workers: u32,
) -> Pass<Sum>
    requires shared { pass.shared ≡ shared.now }
    requires parts { workers < pass.parts }
    requires calls { workers * 1000 ≤ pass.calls }
    ensures { (result.shared ≡ shared.now) × (result.parts ≡ pass.parts) }
{
    if workers == 0 {
        return pass;
    }
    let worker = shared.split(&mut pass, Actor::Author(workers), 1000);
    let (worker, mut pass) = join(
        rt,
        || -> Pass<Sum>
            requires { (worker.shared ≡ shared.now) × (1000 ≤ worker.calls) }
            ensures { (result.shared ≡ shared.entry.now) × (result.parts ≡ worker.parts) }
        { add_numbers(rt, alloc, shared, worker) },
        || -> Pass<Sum>
            requires { (pass.shared ≡ shared.now) × (0 < workers) × (workers < pass.parts + 1) × (workers * 1000 ≤ pass.calls + 1000) }
            ensures { (result.shared ≡ shared.entry.now) × (result.parts ≡ pass.parts) }
        { add_in_threads(rt, alloc, shared, pass, workers - 1) },
    );
    shared.join(&mut pass, worker);
    pass
}

// The sum and the journal that so many workers leave.
fn sum_of_workers<R: Threads + Wait + Sync>(
    rt: &R,
    alloc: Global,
    workers: u32,
) -> Option<(Sum, Journal<Sum>)> {
    let calls = workers as u64 * 1000;
    let parts = workers as u64 + 1;
    let (shared, host) = Shared::new(alloc, Sum { total: 0 }, calls, parts).ok()?;
    let host = add_in_threads(rt, alloc, &shared, host, workers);
    Some(shared.close(host))
}

// Whether each worker's calls stand in the journal once and in order, and each answer is the sum at its place.
fn has_all_calls(sum: &Sum, journal: &Journal<Sum>, workers: usize) -> bool {
    let mut due = [0u64; 9];
    let mut total: u64 = 0;
    for index in 0..journal.len() {
        let Some(entry) = journal.get(index) else {
            return false;
        };
        let Actor::Author(author) = entry.actor else {
            return false;
        };
        let Some(number) = due.get_mut(author as usize) else {
            return false;
        };
        total = total.wrapping_add(entry.command);
        if entry.command != *number || entry.reply != total {
            return false;
        }
        *number = number.wrapping_add(1);
    }
    let ready = due.iter().filter(|number| **number == 1000).count();
    ready == workers && journal.len() / 1000 == workers && sum.total == total
}

#[test]
fn each_worker_has_its_calls_once_and_in_order(rt: HostRuntime) -> Result<(), Fail> {
    for workers in [2u32, 8] {
        let Some((sum, journal)) = sum_of_workers(&rt, rt.alloc(), workers) else {
            panic!(rt; "no memory")
        };
        assert!(rt; has_all_calls(&sum, &journal, workers as usize));
    }
    Ok(())
}

#[test]
fn commands_come_back_for_want_of_memory(rt: HostRuntime) -> Result<(), Fail> {
    let Ok((shared, mut host)) = Shared::new(rt.alloc(), Sum { total: 0 }, 6, 1) else {
        panic!(rt; "no memory")
    };
    assert!(rt; shared.act(&rt, rt.alloc(), &mut host, 5).is_ok());
    match shared.act(&rt, rt.alloc(), &mut host, TOO_MUCH) {
        Ok(_) => panic!(rt; "there was memory"),
        Err(NoMemoryWith { state }) => assert!(rt; state == TOO_MUCH),
    }
    let commands = vec![in rt.alloc(); 1u64, 2, TOO_MUCH, 4]?;
    match shared.act_all(&rt, rt.alloc(), &mut host, commands) {
        Ok(()) => panic!(rt; "there was memory"),
        Err(NoMemoryWith { state }) => assert!(rt; state.as_slice() == [TOO_MUCH, 4].as_slice()),
    }
    let (sum, journal) = shared.close(host);
    assert!(rt; sum.total == 8 && journal.len() == 3);
    Ok(())
}

// Asks the board until an edge is cut, and gives up after very many times. It waits for nobody.
fn sees_cut(board: &Board, seat: &mut BoardSeat, slot: usize) -> bool
    requires board { seat.old.board ≡ board.now }
    requires slot { slot < length board.now.opening }
    ensures { (seat.new.board ≡ board.now) × (seat.new.parts ≡ seat.old.parts) }
{
    for _ in 0..1_000_000u64 {
        if board.read(seat, slot) == State::Deleted {
            return true;
        }
        thread::yield_now();
    }
    false
}

/// What a worker has at hand.
#[derive(Drop)]
struct Hands {
    pass: Pass<Sum>,
    seat: BoardSeat,
}

// Acts, cuts an edge, and acts again once another worker has cut its edge.
fn act_and_cut<R: Wait>(
    rt: &R,
    alloc: Global,
    shared: &Shared<Sum>,
    board: &Board,
    mut hands: Hands,
) -> (Hands, bool)
    requires { (hands.pass.shared ≡ shared.now) × (hands.seat.board ≡ board.now) × (2 ≤ hands.pass.calls) × (1 < length board.now.opening) }
    ensures shared { (result.0.pass.shared ≡ shared.now) × (result.0.pass.parts ≡ hands.pass.parts) }
    ensures board { (result.0.seat.board ≡ board.now) × (result.0.seat.parts ≡ hands.seat.parts) }
{
    let first = shared.act(rt, alloc, &mut hands.pass, 1).is_ok();
    board.raise(&mut hands.seat, 0);
    let seen = sees_cut(board, &mut hands.seat, 1);
    let last = first && seen && shared.act(rt, alloc, &mut hands.pass, 3).is_ok();
    (hands, last)
}

// Acts once another worker has cut its edge, and cuts an edge then.
fn act_between<R: Wait>(
    rt: &R,
    alloc: Global,
    shared: &Shared<Sum>,
    board: &Board,
    mut hands: Hands,
) -> (Hands, bool)
    requires { (hands.pass.shared ≡ shared.now) × (hands.seat.board ≡ board.now) × (1 ≤ hands.pass.calls) × (1 < length board.now.opening) }
    ensures shared { (result.0.pass.shared ≡ shared.now) × (result.0.pass.parts ≡ hands.pass.parts) }
    ensures board { (result.0.seat.board ≡ board.now) × (result.0.seat.parts ≡ hands.seat.parts) }
{
    let seen = sees_cut(board, &mut hands.seat, 0);
    let acted = seen && shared.act(rt, alloc, &mut hands.pass, 2).is_ok();
    board.raise(&mut hands.seat, 1);
    (hands, acted)
}

// Lets both act, each in a thread of its own, and says whether both could.
fn act_by_turns<R: Threads + Wait + Sync>(
    rt: &R,
    alloc: Global,
    shared: &Shared<Sum>,
    board: &Board,
    one: Hands,
    two: Hands,
) -> (Hands, Hands, bool)
    requires one { (one.pass.shared ≡ shared.now) × (one.seat.board ≡ board.now) × (2 ≤ one.pass.calls) }
    requires two { (two.pass.shared ≡ shared.now) × (two.seat.board ≡ board.now) × (1 ≤ two.pass.calls) }
    requires slots { 1 < length board.now.opening }
    ensures one { (result.0.pass.shared ≡ shared.now) × (result.0.seat.board ≡ board.now) × (result.0.pass.parts ≡ one.pass.parts) × (result.0.seat.parts ≡ one.seat.parts) }
    ensures two { (result.1.pass.shared ≡ shared.now) × (result.1.seat.board ≡ board.now) × (result.1.pass.parts ≡ two.pass.parts) × (result.1.seat.parts ≡ two.seat.parts) }
{
    let (one, two) = join(
        rt,
        || -> (Hands, bool)
            requires { (one.pass.shared ≡ shared.now) × (one.seat.board ≡ board.now) × (2 ≤ one.pass.calls) × (1 < length board.now.opening) }
            ensures { (result.0.pass.shared ≡ shared.entry.now) × (result.0.seat.board ≡ board.entry.now) × (result.0.pass.parts ≡ one.pass.parts) × (result.0.seat.parts ≡ one.seat.parts) }
        { act_and_cut(rt, alloc, shared, board, one) },
        || -> (Hands, bool)
            requires { (two.pass.shared ≡ shared.now) × (two.seat.board ≡ board.now) × (1 ≤ two.pass.calls) × (1 < length board.now.opening) }
            ensures { (result.0.pass.shared ≡ shared.entry.now) × (result.0.seat.board ≡ board.entry.now) × (result.0.pass.parts ≡ two.pass.parts) × (result.0.seat.parts ≡ two.seat.parts) }
        { act_between(rt, alloc, shared, board, two) },
    );
    (one.0, two.0, one.1 && two.1)
}

// The journal and the states that two workers leave, if both could act.
fn left_by_turns<R: Threads + Wait + Sync>(
    rt: &R,
    alloc: Global,
) -> Option<(Journal<Sum>, Vec<State>)> {
    let (shared, mut host) = Shared::new(alloc, Sum { total: 0 }, 3, 3).ok()?;
    let opening = [State::Live, State::Live, State::Live];
    let (board, mut seat) = Board::new(alloc, &opening, 3).ok()?;
    let one = Hands {
        pass: shared.split(&mut host, Actor::Author(1), 2),
        seat: board.split(&mut seat),
    };
    let two = Hands {
        pass: shared.split(&mut host, Actor::Author(2), 1),
        seat: board.split(&mut seat),
    };
    let (one, two, acted) = act_by_turns(rt, alloc, &shared, &board, one, two);
    let Hands { pass, seat: cut } = one;
    shared.join(&mut host, pass);
    board.join(&mut seat, cut);
    let Hands { pass, seat: cut } = two;
    shared.join(&mut host, pass);
    board.join(&mut seat, cut);
    let (_sum, journal) = shared.close(host);
    let states = board.close(seat);
    acted.then_some((journal, states))
}

#[test]
fn two_workers_act_by_turns(rt: HostRuntime) -> Result<(), Fail> {
    let Some((journal, states)) = left_by_turns(&rt, rt.alloc()) else {
        panic!(rt; "no memory, or a worker waited in vain")
    };
    assert!(rt; journal.len() == 3);
    for (index, author) in [1u32, 2, 1].iter().enumerate() {
        let Some(entry) = journal.get(index) else {
            panic!(rt; "an entry is missing")
        };
        assert!(rt; entry.actor == Actor::Author(*author) && entry.command == index as u64 + 1);
    }
    assert!(rt; states.as_slice() == [State::Deleted, State::Deleted, State::Live].as_slice());
    Ok(())
}

#[test]
fn all_commands_stand_in_one_turn(rt: HostRuntime) -> Result<(), Fail> {
    let Ok((shared, mut host)) = Shared::new(rt.alloc(), Sum { total: 0 }, 3, 1) else {
        panic!(rt; "no memory")
    };
    let commands = vec![in rt.alloc(); 1u64, 2, 3]?;
    assert!(rt; shared.act_all(&rt, rt.alloc(), &mut host, commands).is_ok());
    let (sum, journal) = shared.close(host);
    assert!(rt; sum.total == 6 && journal.len() == 3);
    Ok(())
}
