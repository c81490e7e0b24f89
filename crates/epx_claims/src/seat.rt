//! A seat: the right to draw pieces.
ghost use Rattle.std.specs.Prelude.{◌≡◌};

use crate::seat_state::View;
use atomic_table::Seat;
use std::marker::Model;

/// The right to draw pieces, with a share. Contracts see the pieces that it has drawn, in order. A
/// dropped seat keeps its share, so its claims can no longer be closed.
#[derive(Drop)]
pub struct ClaimSeat {
    pub(crate) seat: Seat<(), View>,
    pub(crate) share: usize,
    pub(crate) ended: bool,
}

impl Model for ClaimSeat {
    ghost use Rattle.epx_claims.specs.between.Seated.{SeatView};

    ghost Value = { SeatView };

    ghost use Rattle.epx_claims.specs.inner.SeatFields.{seat_view, IsClaimSeat};

    ghost view = { seat_view };

    ghost invariant = { IsClaimSeat };
}

impl ClaimSeat {
    /// How many workers the seat counts for.
    pub fn share(&self) -> usize
        ensures { result ≡ self.now.share }
    {
        self.share
    }

    /// Whether a draw has found no piece left.
    pub fn ended(&self) -> bool
        ensures { result ≡ self.now.ended }
    {
        self.ended
    }
}
