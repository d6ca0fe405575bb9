ghost use Rattle.std.specs.Prelude.{◌≡◌, ◌<◌, ◌≤◌, length, IfOk};
ghost use Rattle.edge_lattice.specs.State.{IsAtMost};
ghost use Rattle.edge_lattice.specs.declared.state.State.TheVariants.{Deleted};
ghost use Rattle.edge_board.specs.States.{state_at, raised, AreAtMost};
ghost use Rattle.edge_board.specs.Seats.{first_board_seat, after_raise, after_read, kept_board_seat, given_board_seat, joined_board_seat};

use crate::known::{Known, OneBoard, Terms};
use crate::plays::{Both, Cut, Look, Raise};
use crate::seat::BoardSeat;
use crate::words::{DELETED, state_of, words_of};
use atomic_table::Table;
use edge_lattice::State;
use std::alloc::Global;
use std::marker::Model;
use text_parts::NoMemory;

/// One word for each state of a list. Contracts see which board it is, and what it was made with.
#[derive(Drop)]
pub struct Board {
    table: Table<(), Known, Terms, OneBoard, Global>,
    terms: Terms,
}

impl Model for Board {
    ghost use Rattle.edge_board.specs.Seats.{BoardOf};

    ghost Value = { BoardOf };

    ghost use Rattle.edge_board.specs.Rule.{opening_of};
    ghost use Rattle.edge_board.specs.Sits.{board_of, Stands};

    ghost view = { λ board. board_of board.table.shared.table_id (opening_of board.table.shared.key) };

    ghost invariant = { λ board. Stands board.table.shared.table_id (opening_of board.table.shared.key) (opening_of board.terms) };
}

impl Board {
    /// A board with a slot for each of these states, and its first seat, which has all the parts. `parts` is how many seats there
    /// may be at once.
    pub fn new(alloc: Global, states: &[State], parts: u64) -> Result<(Board, BoardSeat), NoMemory>
        requires some_state { 1 ≤ length states.now }
        requires some_part { 1 ≤ parts }
        ensures board { IfOk result (λ made. (made.0.parts ≡ parts) × (made.0.opening ≡ states.now)) }
        ensures seat { IfOk result (λ made. made.1 ≡ first_board_seat made.0) }
    {
        let words = words_of(alloc, states)?;
        let terms = Terms {
            parts,
            states: states.to_vec(alloc)?,
        };
        let (table, place) = Table::of_words(alloc, words.as_slice(), &terms)?;
        Ok((Board { table, terms }, BoardSeat { place }))
    }

    /// Raises a slot to Deleted, in one atomic step. It takes no memory, and waits for nobody.
    pub fn raise(&self, seat: &mut BoardSeat, slot: usize)
        requires board { seat.old.board ≡ self.now }
        requires slot { slot < length self.now.opening }
        ensures seat { seat.new ≡ after_raise seat.old slot }
        ensures there { state_at seat.new.seen slot ≡ Deleted }
    {
        self.table
            .shared
            .fetch_max::<Raise>(&mut seat.place, slot, DELETED);
    }

    /// The state of a slot, in one atomic step. It takes no memory, and waits for nobody.
    pub fn read(&self, seat: &mut BoardSeat, slot: usize) -> State
        requires board { seat.old.board ≡ self.now }
        requires slot { slot < length self.now.opening }
        ensures rises { IsAtMost (state_at seat.old.seen slot) result }
        ensures seat { seat.new ≡ after_read seat.old slot result }
        ensures there { state_at seat.new.seen slot ≡ result }
    {
        state_of(self.table.shared.load::<Look>(&mut seat.place, slot))
    }

    /// Hands one of the seat's parts to a new seat. It takes no memory.
    pub fn split(&self, seat: &mut BoardSeat) -> BoardSeat
        requires board { seat.old.board ≡ self.now }
        requires parts { 2 ≤ seat.old.parts }
        ensures kept { seat.new ≡ kept_board_seat seat.old }
        ensures given { result ≡ given_board_seat seat.old }
    {
        let place = self.table.shared.split_seat::<Cut>(&mut seat.place);
        BoardSeat { place }
    }

    /// Gives a seat the parts and the marks of another, and what that one has seen. It takes no memory.
    pub fn join(&self, seat: &mut BoardSeat, other: BoardSeat)
        requires board { (seat.old.board ≡ self.now) × (other.board ≡ self.now) }
        ensures joined { seat.new ≡ joined_board_seat seat.old other }
    {
        let BoardSeat { place } = other;
        self.table.shared.join_seat::<Both>(&mut seat.place, place);
    }

    /// Ends the board, and answers its states. It takes no memory: `new` took the room for the answer.
    pub fn close(self, seat: BoardSeat) -> Vec<State>
        requires board { seat.board ≡ self }
        requires whole { seat.parts ≡ self.parts }
        ensures states { result.items ≡ raised self.opening seat.marks }
        ensures later { AreAtMost seat.seen result.items }
    {
        let Board { table, terms } = self;
        let BoardSeat { place } = seat;
        let Terms {
            parts: _,
            mut states,
        } = terms;
        let closed = table.close_with(place);
        let mut slot = 0;
        while slot < states.len() {
            states[slot] = state_of(closed.word(slot));
            slot += 1;
        }
        closed.free();
        states
    }
}
