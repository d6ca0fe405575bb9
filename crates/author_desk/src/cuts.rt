ghost use Rattle.std.specs.Prelude.{◌≡◌};
ghost use Rattle.author_desk.specs.Lines.{slots_named, is_opening_cut};
ghost use Rattle.author_desk.specs.Cuts.{opening_edits, seat_of, CanRaise, HasPartsFor, HandsOver, CanTakeIn, TakesIn, Raises};

use crate::opening::raise_edges_named;
use edge_board::{Board, BoardSeat};
use grove_edits::{Action, EditList};

/// What an author's cuts are made on.
#[derive(Drop)]
pub enum Cuts<'a> {
    /// A graph that opened without edges.
    Empty,
    /// The opening edges, as the canonical list of the opening graph, and a board with a slot for each edit of the list, in its order.
    On {
        opening: &'a EditList,
        board: &'a Board,
        seat: BoardSeat,
    },
}

impl<'a> Cuts<'a> {
    /// The seat at the board, where there is one.
    pub fn into_seat(self) -> Option<BoardSeat>
        ensures { result ≡ seat_of self.entry }
    {
        match self {
            Cuts::Empty => None,
            Cuts::On {
                opening: _,
                board: _,
                seat,
            } => Some(seat),
        }
    }

    /// Cuts for another author of the graph, with a seat that gets one part of this one. It takes no memory.
    pub fn split(&mut self) -> Cuts<'a>
        requires board { CanRaise self.old }
        requires parts { HasPartsFor 1 self.old }
        ensures { HandsOver self.old self.new result }
    {
        match self {
            Cuts::Empty => Cuts::Empty,
            Cuts::On {
                opening,
                board,
                seat,
            } => Cuts::On {
                opening: *opening,
                board: *board,
                seat: board.split(seat),
            },
        }
    }

    /// Gives the seat the parts and the marks of that of other cuts, where they have one. It takes no memory.
    pub fn join(&mut self, other: Cuts<'_>)
        requires { CanTakeIn self.old other }
        ensures { TakesIn self.old other.entry self.new }
    {
        match other {
            Cuts::Empty => {}
            Cuts::On {
                opening: _,
                board: _,
                seat: joined,
            } => match self {
                Cuts::Empty => unreachable!(),
                Cuts::On {
                    opening: _,
                    board,
                    seat,
                } => board.join(seat, joined),
            },
        }
    }
}

/// Raises the slots of the opening edges that a line cuts, and says whether it cuts any.
pub(crate) fn raise_edges(cuts: &mut Cuts<'_>, line: &Action) -> bool
    requires { CanRaise cuts.old }
    ensures is_cut { result ≡ is_opening_cut (opening_edits cuts.old) line.now }
    ensures raised { Raises cuts.old cuts.new (slots_named (opening_edits cuts.old) line.now) }
{
    match cuts {
        Cuts::Empty => false,
        Cuts::On {
            opening,
            board,
            seat,
        } => match line {
            Action::Cut { edge } => raise_edges_named(board, seat, opening.as_slice(), *edge),
            _ => false,
        },
    }
}
