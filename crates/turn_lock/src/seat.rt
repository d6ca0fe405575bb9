ghost use Rattle.std.specs.Prelude.{◌≡◌, true};
ghost use Rattle.std.specs.Option.{is_some};

use crate::kept::Kept;
use crate::known::Place;
use std::marker::Model;

/// The right to take turns at one state, with a number of its parts and of its calls. Contracts see it as a `TurnStanding`.
#[derive(Drop)]
pub struct TurnSeat<S: Kept> {
    pub(crate) place: Place<S>,
    // The number that was drawn last.
    pub(crate) number: u64,
    ghost opened: { is_some place.me.0.opening ≡ true },
}

impl<S: Kept> Model for TurnSeat<S> {
    ghost use Rattle.turn_lock.specs.Seats.{TurnStanding};

    ghost Value = { TurnStanding S.Entry S.First };

    ghost use Rattle.turn_lock.specs.Sits.{Sits, standing};

    ghost view = { λ seat. standing seat.place.table_id seat.place.me.0 seat.opened };

    ghost invariant = { λ seat. Sits seat.place.me seat.number };
}
