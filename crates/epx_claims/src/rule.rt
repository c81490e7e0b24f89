//! The rule of a table of claims, and the kinds of its steps.
use crate::seat_state::{Terms, View};
use atomic_table::{Join, Play, Split, TableRule};

/// The rule: the counter and the seats are in a consistent state.
pub struct ClaimsRule;

impl TableRule<(), View, Terms> for ClaimsRule {
    ghost use Rattle.epx_claims.specs.inner.Rule.{HasClaimState, opening_view};

    ghost holds = { HasClaimState };

    ghost first = { opening_view };
}

/// A seat draws the next piece, or stops.
pub struct DrawStep;

impl Play<(), View> for DrawStep {
    ghost use Rattle.epx_claims.specs.inner.Rule.{IsDrawStep};

    ghost then = { IsDrawStep };
}

/// First half of a split: the seat's one state becomes two.
pub struct SplitStep;

impl Play<(), View> for SplitStep {
    ghost use Rattle.epx_claims.specs.inner.Rule.{IsSplitStep};

    ghost then = { IsSplitStep };
}

/// Second half of a join: the seat's two states become one.
pub struct JoinStep;

impl Play<(), View> for JoinStep {
    ghost use Rattle.epx_claims.specs.inner.Rule.{IsJoinStep};

    ghost then = { IsJoinStep };
}

/// Second half of a split: a new seat gets the second of the two states.
pub struct SplitSeat;

impl Split<View> for SplitSeat {
    ghost use Rattle.epx_claims.specs.inner.Rule.{first_view, other_view};

    ghost left = { first_view };

    ghost right = { other_view };
}

/// First half of a join: a seat gets the state of another seat, which is spent then.
pub struct JoinSeat;

impl Join<View> for JoinSeat {
    ghost use Rattle.epx_claims.specs.inner.Rule.{joined_view, spent_view};

    ghost both = { joined_view };

    ghost spent = { spent_view };
}
