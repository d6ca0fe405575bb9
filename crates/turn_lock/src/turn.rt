ghost use Rattle.std.specs.Prelude.{◌≡◌, ℕ, ◌+◌, ◌≤◌, false, true, List, [], ◌++◌, length, IfOk, IfErr};
ghost use mathlib.Core.List.{IsPrefix};
ghost use Rattle.turn_lock.specs.Places.{times, once_below};
ghost use Rattle.turn_lock.specs.Seats.{all_put, first_turn_seat, at_turn, after_turn, kept_turn_seat, given_turn_seat, joined_turn_seat};

use crate::kept::Kept;
use crate::known::{Known, OneTurn, STATE, Terms};
use crate::no_memory_with::NoMemoryWith;
use crate::seat::TurnSeat;
use crate::steps;
use atomic_table::{Refused, Table};
use std::alloc::{AllocFailed, Global};
use std::marker::Model;
use std::snapshot::Snapshot;
use std::sync::Wait;

/// One state, and one turn at a time at it. Contracts see it as a `TurnOf`.
#[derive(Drop)]
pub struct Turn<S: Kept> {
    table: Table<Option<S>, Known<S::Entry, S::First>, Terms<S>, OneTurn, Global>,
}

impl<S: Kept> Model for Turn<S> {
    ghost use Rattle.std.specs.Prelude.{◌≡◌};
    ghost use Rattle.turn_lock.specs.Seats.{TurnOf};

    ghost Value = { TurnOf S.First };

    ghost use Rattle.turn_lock.specs.Rule.{opening_of};
    ghost use Rattle.turn_lock.specs.Sits.{turn_of};

    ghost view = { λ turn. turn_of turn.table.shared.table_id (opening_of S.now turn.table.shared.key) };

    ghost invariant = { λ turn. (turn.table.shared.table_id.words ≡ 2) × (turn.table.shared.table_id.slots ≡ 1) };
}

impl<S: Kept> Turn<S> {
    /// A turn at the state, and its first seat, which has all the calls and all the parts. `calls` is how many entries may be
    /// added to the list in all, `parts` how many seats there may be at once.
    pub fn new(
        alloc: Global,
        state: S,
        calls: u64,
        parts: u64,
    ) -> Result<(Turn<S>, TurnSeat<S>), NoMemoryWith<S>>
        requires empty { S.list state ≡ [] }
        requires some_part { 1 ≤ parts }
        ensures turn { IfOk result (λ made. (made.0.calls ≡ calls) × (made.0.parts ≡ parts) × (made.0.first ≡ S.now state)) }
        ensures seat { IfOk result (λ made. made.1 ≡ first_turn_seat made.0) }
        ensures back { IfErr result (λ refused. refused.state ≡ state) }
    {
        let terms = Terms {
            calls,
            parts,
            state: Snapshot::of(&state),
        };
        let mut slots = Vec::new(alloc);
        if let Err(AllocFailed { value }) = slots.push(Some(state)) {
            return Err(NoMemoryWith {
                state: value.unwrap(),
            });
        }
        match Table::new(alloc, &[0, 0], slots, &terms) {
            Ok((table, place)) => Ok((Turn { table }, TurnSeat { place, number: 0 })),
            Err(Refused { mut slots }) => {
                let state = slots.remove(0).unwrap();
                Err(NoMemoryWith { state })
            }
        }
    }

    /// Waits for the seat's turn, and takes the state. Until `finish` gives it back everybody else waits.
    pub fn begin<R: Wait>(&self, rt: &R, seat: &mut TurnSeat<S>) -> S
        requires turn { seat.old.turn ≡ self.now }
        requires rests { seat.old.begun ≡ false }
        ensures seat { seat.new ≡ at_turn seat.old (S.list result) }
        ensures later { IsPrefix seat.old.seen (S.list result) }
        ensures grown { S.grown self.now.first result }
        ensures room { length (S.list result) + seat.old.calls ≤ self.now.calls }
    {
        let number = steps::draw(rt, &self.table.shared, &mut seat.place);
        seat.number = number;
        steps::enter(rt, &self.table.shared, &mut seat.place, number)
    }

    /// Puts the state back, with the entries that were added, and ends the seat's turn.
    pub fn finish(&self, seat: &mut TurnSeat<S>, state: S)
        requires turn { seat.old.turn ≡ self.now }
        requires begun { seat.old.begun ≡ true }
        requires entries { (entries : List S.Entry) × (S.list state ≡ seat.old.seen ++ entries) × (length entries ≤ seat.old.calls) }
        requires grown { S.grown self.now.first state }
        ensures seat { seat.new ≡ after_turn seat.old (S.list state) }
    {
        let number = seat.number;
        steps::leave(&self.table.shared, &mut seat.place, number, state);
    }

    /// Hands one of the seat's parts and so many of its calls to a new seat with this tag. It takes no memory.
    pub fn split(&self, seat: &mut TurnSeat<S>, tag: u64, calls: u64) -> TurnSeat<S>
        requires turn { seat.old.turn ≡ self.now }
        requires rests { seat.old.begun ≡ false }
        requires parts { 2 ≤ seat.old.parts }
        requires calls { calls ≤ seat.old.calls }
        ensures kept { seat.new ≡ kept_turn_seat seat.old calls }
        ensures given { result ≡ given_turn_seat seat.old tag calls }
    {
        let place = steps::cut(&self.table.shared, &mut seat.place, tag, calls);
        TurnSeat { place, number: 0 }
    }

    /// Gives a seat the parts and the calls of another, and keeps what that one put under its tag. It takes no memory.
    pub fn join(&self, seat: &mut TurnSeat<S>, other: TurnSeat<S>)
        requires turn { (seat.old.turn ≡ self.now) × (other.turn ≡ self.now) }
        requires rests { (seat.old.begun ≡ false) × (other.begun ≡ false) }
        ensures joined { seat.new ≡ joined_turn_seat seat.old other }
        ensures longer { IsPrefix seat.old.seen seat.new.seen × IsPrefix other.seen seat.new.seen }
    {
        let TurnSeat { place, number: _ } = other;
        steps::join(&self.table.shared, &mut seat.place, place);
    }

    /// Ends the turn, and gives the state back. It takes no memory.
    pub fn close(self, seat: TurnSeat<S>) -> S
        requires turn { seat.turn ≡ self }
        requires rests { seat.begun ≡ false }
        requires whole { seat.parts ≡ self.parts }
        ensures grown { S.grown self.first result }
        ensures later { IsPrefix seat.seen (S.list result) }
        ensures calls { length (S.list result) + seat.calls ≡ self.calls }
        ensures places { (place : ℕ) → times place (all_put seat) ≡ once_below place (length (S.list result)) }
    {
        let Turn { table } = self;
        let TurnSeat { place, number: _ } = seat;
        let mut closed = table.close_with(place);
        let state = closed.take(STATE);
        closed.free();
        match state {
            Some(state) => state,
            None => unreachable!(),
        }
    }
}
