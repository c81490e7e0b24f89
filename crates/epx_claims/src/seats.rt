//! Splits a seat, so that each worker has one.
ghost use Rattle.std.specs.Prelude.{◌≡◌, ◌+◌, ◌∷◌, OnOk};
ghost use Rattle.epx_claims.specs.inner.WorkResult.{AreFresh, IsFresh, shares};

use crate::claims::Claims;
use crate::seat::ClaimSeat;
use epx_types::Memory;

/// Splits a seat that counts for several workers. It is left with one of them, and each of the
/// others gets a seat of its own.
pub(crate) fn split_off(
    claims: &Claims,
    seat: &mut ClaimSeat,
    others: &mut Vec<ClaimSeat>,
) -> Result<(), Memory>
    requires { IsFresh claims.now seat.old.share seat.old }
    ensures fresh { AreFresh claims.now others.old.items
        → OnOk result (AreFresh claims.now (seat.new ∷ others.new.items)) }
    ensures shares { OnOk result (shares (seat.new ∷ others.new.items)
        ≡ seat.old.share + shares others.old.items) }
{
    if seat.share() < 2 {
        return Ok(());
    }
    let mut other = claims.split(seat);
    split_off(claims, seat, others)?;
    split_off(claims, &mut other, others)?;
    others.push(other)?;
    Ok(())
}
