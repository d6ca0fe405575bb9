use crate::machine::Machine;
use crate::solo::Solo;
use grove_edits::Actor;
use std::marker::Model;
use turn_lock::TurnSeat;

/// A right to call a shared machine as one actor. Contracts see it as a `Passing`.
#[derive(Drop)]
pub struct Pass<M: Machine> {
    pub(crate) seat: TurnSeat<Solo<M>>,
    pub(crate) actor: Actor,
}

impl<M: Machine> Model for Pass<M> {
    ghost use Rattle.shared_replica.specs.Passes.{Passing};

    ghost Value = { Passing M M.Command M.Effect M.Reply };

    ghost use Rattle.shared_replica.specs.Placed.{passing, IsPassOf};

    ghost view = { λ pass. passing pass.seat pass.actor };

    ghost invariant = { λ pass. IsPassOf pass.seat pass.actor };
}
