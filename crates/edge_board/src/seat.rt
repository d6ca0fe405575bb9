use crate::known::Place;
use std::marker::Model;

/// The right to raise and read the slots of a board, with a number of its parts. It has no bytes. Contracts see it as a
/// `BoardStanding`.
#[derive(Drop)]
pub struct BoardSeat {
    pub(crate) place: Place,
}

impl Model for BoardSeat {
    ghost use Rattle.edge_board.specs.Seats.{BoardStanding};

    ghost Value = { BoardStanding };

    ghost use Rattle.edge_board.specs.Sits.{Sits, standing};

    ghost view = { λ seat. standing seat.place.table_id seat.place.me.0 };

    ghost invariant = { λ seat. Sits seat.place.me };
}
