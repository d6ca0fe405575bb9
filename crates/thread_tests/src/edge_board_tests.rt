ghost use Rattle.std.specs.Prelude.{◌≡◌, ◌<◌, ◌++◌, [], ◌∷◌, length, IfOk};
ghost use Rattle.edge_lattice.specs.declared.state.State.TheVariants.{Deleted};
ghost use Rattle.edge_board.specs.States.{raised};
ghost use Rattle.edge_board.specs.Seats.{BoardOf};

use edge_board::{Board, BoardSeat, NoMemory};
use edge_lattice::State;
use std::alloc::Global;
use std::marker::{Brand, PhantomData};
use std::sync::Mutex;
use std::test::Fail;
use std::thread;
use std::thread::{Threads, join};

// Raises a slot. What it then reads in it is no older state.
fn raise_and_read(board: &Board, mut seat: BoardSeat, slot: usize) -> (BoardSeat, State)
    requires board { seat.board ≡ board.now }
    requires slot { slot < length board.now.opening }
    ensures board { result.0.board ≡ seat.board }
    ensures parts { result.0.parts ≡ seat.parts }
    ensures marks { result.0.marks ≡ seat.marks ++ slot ∷ [] }
    ensures state { result.1 ≡ Deleted }
{
    board.raise(&mut seat, slot);
    let state = board.read(&mut seat, slot);
    (seat, state)
}

// Two threads raise the first slot and the third.
fn raise_in_two_threads<R: Threads + Sync>(
    rt: &R,
    alloc: Global,
    opening: &[State],
) -> Result<Vec<State>, NoMemory>
    requires { 2 < length opening.now }
    ensures { IfOk result (λ states. states.items ≡ raised opening.now (0 ∷ 2 ∷ [])) }
{
    let (board, mut seat) = Board::new(alloc, opening, 3)?;
    let one = board.split(&mut seat);
    let two = board.split(&mut seat);
    let (one, two) = join(
        rt,
        || -> (BoardSeat, State)
            requires { (one.board ≡ board) × (one.parts ≡ 1) × (one.marks ≡ []) × (2 < length board.opening) }
            ensures { (result.0.board ≡ board) × (result.0.parts ≡ 1) × (result.0.marks ≡ 0 ∷ []) }
        { raise_and_read(&board, one, 0) },
        || -> (BoardSeat, State)
            requires { (two.board ≡ board) × (two.parts ≡ 1) × (two.marks ≡ []) × (2 < length board.opening) }
            ensures { (result.0.board ≡ board) × (result.0.parts ≡ 1) × (result.0.marks ≡ 2 ∷ []) }
        { raise_and_read(&board, two, 2) },
    );
    board.join(&mut seat, one.0);
    board.join(&mut seat, two.0);
    Ok(board.close(seat))
}

#[test]
fn both_threads_raise_their_slots(rt: HostRuntime) -> Result<(), Fail> {
    let opening = [State::Live, State::Live, State::Live, State::Deleted];
    let states = raise_in_two_threads(&rt, rt.alloc(), &opening)?;
    assert!(rt; states.len() == 4 && states[0] == State::Deleted && states[1] == State::Live);
    assert!(rt; states[2] == State::Deleted && states[3] == State::Deleted);
    Ok(())
}

// Which board a watch is at. Each call of a program picks it.
trait Naming {
    ghost board: { BoardOf };
}

impl Naming for Brand {
    ghost board = { record { table = record { words = 0; slots = 0; views_name = 0; atom = 0; block = 0; offset = 0; slot_names = [] }; parts = 0; opening = [] } };
}

// A seat that can lie under a lock.
#[derive(Drop)]
struct Watch<B: Naming> {
    seat: BoardSeat,
    of: PhantomData<B>,
    ghost at: { seat.board ≡ B.board },
}

// Asks until a slot is Deleted, and gives up after very many times. It waits for nobody.
fn sees_deleted<B: Naming>(board: &Board, watch: &Mutex<Watch<B>>, slot: usize) -> bool
    requires board { board.now ≡ B.board }
    requires slot { slot < length board.now.opening }
{
    for _ in 0..1_000_000u64 {
        if let Some(mut watch) = watch.try_lock() {
            if board.read(&mut watch.seat, slot) == State::Deleted {
                return true;
            }
        }
        thread::yield_now();
    }
    false
}

// One thread raises two slots. The other sees it through a seat under a lock.
fn watch_as<B: Naming + Send + Sync, R: Threads + Sync>(
    rt: &R,
    board: &Board,
    seat: BoardSeat,
    watch: BoardSeat,
) -> bool
    requires seats { (board.now ≡ B.board) × (seat.board ≡ B.board) × (watch.board ≡ B.board) }
    requires slots { 2 < length board.now.opening }
{
    let watch = Mutex::new(Watch::<B> {
        seat: watch,
        of: PhantomData,
    });
    let (_, saw) = join(
        rt,
        || -> BoardSeat
            requires { (seat.board ≡ board.now) × (2 < length board.now.opening) }
        {
            let mut seat = seat;
            board.raise(&mut seat, 0);
            board.raise(&mut seat, 2);
            seat
        },
        || -> bool
            requires { (board.now ≡ B.board) × (2 < length board.now.opening) }
        { sees_deleted(board, &watch, 0) && sees_deleted(board, &watch, 2) },
    );
    saw
}

// The same, at a board that is made for it.
fn raise_and_watch<R: Threads + Sync>(
    rt: &R,
    alloc: Global,
    opening: &[State],
) -> Result<bool, NoMemory>
    requires { 2 < length opening.now }
{
    let (board, mut seat) = Board::new(alloc, opening, 2)?;
    let watch = board.split(&mut seat);
    Ok(watch_as::<Brand, R>(rt, &board, seat, watch))
}

#[test]
fn a_thread_sees_what_another_raised(rt: HostRuntime) -> Result<(), Fail> {
    let opening = [State::Live, State::Live, State::Live];
    assert!(rt; raise_and_watch(&rt, rt.alloc(), &opening)?);
    Ok(())
}
