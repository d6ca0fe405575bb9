ghost use Rattle.std.specs.Prelude.{◌≡◌, ◌≤◌, ◌+◌, false};

use std::alloc::Global;
use std::sync::Wait;
use std::test::Fail;
use std::thread::{Threads, join};
use turn_lock::{Kept, Turn, TurnSeat};

/// Numbers that were written down, on a page with a title.
#[derive(Drop)]
struct Page {
    title: u64,
    numbers: Vec<u64>,
}

impl Kept for Page {
    ghost use Rattle.std.specs.Prelude.{◌≡◌, refl};

    type Entry = u64;

    type First = u64;

    ghost list = { λ page. page.numbers.items };

    ghost now = { λ page. page.title };

    ghost grown = { λ title page. page.title ≡ title };

    ghost from_itself = { λ page empty. refl };
}

// Writes a number down in a turn of the seat, and says whether there was memory.
fn write<R: Wait>(rt: &R, turn: &Turn<Page>, seat: &mut TurnSeat<Page>, number: u64) -> bool
    requires turn { seat.old.turn ≡ turn.now }
    requires rests { seat.old.begun ≡ false }
    requires calls { 1 ≤ seat.old.calls }
    ensures turn { seat.new.turn ≡ seat.old.turn }
    ensures rests { seat.new.begun ≡ false }
    ensures parts { seat.new.parts ≡ seat.old.parts }
    ensures calls { seat.old.calls ≤ seat.new.calls + 1 }
{
    let mut page = turn.begin(rt, seat);
    match page.numbers.push(number) {
        Ok(()) => {
            turn.finish(seat, page);
            true
        }
        Err(_) => {
            turn.finish(seat, page);
            false
        }
    }
}

// Writes a number down twice.
fn write_twice<R: Wait>(
    rt: &R,
    turn: &Turn<Page>,
    mut seat: TurnSeat<Page>,
    number: u64,
) -> (TurnSeat<Page>, bool)
    requires turn { seat.turn ≡ turn.now }
    requires rests { seat.begun ≡ false }
    requires calls { 2 ≤ seat.calls }
    ensures turn { result.0.turn ≡ turn.now }
    ensures rests { result.0.begun ≡ false }
    ensures parts { result.0.parts ≡ seat.parts }
{
    let first = write(rt, turn, &mut seat, number);
    let second = write(rt, turn, &mut seat, number);
    (seat, first && second)
}

// Two threads write on one page.
fn write_in_two_threads<R: Threads + Wait + Sync>(rt: &R, alloc: Global) -> Option<(Page, bool)> {
    let page = Page {
        title: 9,
        numbers: Vec::new(alloc),
    };
    let (turn, mut seat) = Turn::new(alloc, page, 4, 3).ok()?;
    let one = turn.split(&mut seat, 1, 2);
    let two = turn.split(&mut seat, 2, 2);
    let (one, two) = join(
        rt,
        || -> (TurnSeat<Page>, bool)
            requires { (one.turn ≡ turn) × (one.begun ≡ false) × (2 ≤ one.calls) × (one.parts ≡ 1) }
            ensures { (result.0.turn ≡ turn) × (result.0.begun ≡ false) × (result.0.parts ≡ 1) }
        { write_twice(rt, &turn, one, 1) },
        || -> (TurnSeat<Page>, bool)
            requires { (two.turn ≡ turn) × (two.begun ≡ false) × (2 ≤ two.calls) × (two.parts ≡ 1) }
            ensures { (result.0.turn ≡ turn) × (result.0.begun ≡ false) × (result.0.parts ≡ 1) }
        { write_twice(rt, &turn, two, 2) },
    );
    turn.join(&mut seat, one.0);
    turn.join(&mut seat, two.0);
    Some((turn.close(seat), one.1 && two.1))
}

#[test]
fn both_threads_have_their_turns(rt: HostRuntime) -> Result<(), Fail> {
    let Some((page, wrote)) = write_in_two_threads(&rt, rt.alloc()) else {
        panic!(rt; "no memory")
    };
    let mut ones: u64 = 0;
    let mut twos: u64 = 0;
    for number in page.numbers.iter() {
        if *number == 1 {
            ones = ones.wrapping_add(1);
        }
        if *number == 2 {
            twos = twos.wrapping_add(1);
        }
    }
    assert!(rt; wrote && page.title == 9 && page.numbers.len() == 4 && ones == 2 && twos == 2);
    Ok(())
}
