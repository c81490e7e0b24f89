//! Numbered pieces of work, which threads draw from one shared counter, each piece once.
ghost use Rattle.std.specs.Prelude.{◌≡◌, ◌<◌, ◌≤◌, ◌^◌, ◌+◌, ◌-◌, ◌/◌, ◌++◌, ◌||◌, [], ◌∷◌, ℕ};
ghost use Rattle.std.specs.Prelude.{min, true, false, None, length, IfOk, IfSome, IfNone};
ghost use Rattle.std.specs.List.{All};
ghost use Rattle.epx_claims.specs.between.Count.{occurrences, indicator_below};
ghost use Rattle.epx_claims.specs.between.ClaimStep.{ClaimStep, IsClaimState};
ghost use Rattle.epx_claims.specs.between.Seated.{IsSeatOf, fresh_seat};

use crate::rule::{ClaimsRule, DrawStep, JoinSeat, JoinStep, SplitSeat, SplitStep};
use crate::seat::ClaimSeat;
use crate::seat_state::{Terms, View};
use atomic_table::Table;
use epx_types::Memory;
use std::alloc::Global;
use std::marker::Model;

/// Pieces of work with numbers from 0, which threads draw, each piece once.
///
/// Threads share the claims by reference; each draws through its own seat. Between any two atomic
/// steps of any threads, the shared counter and the seats that are not spent are in a consistent
/// state (`IsClaimState`). Each call's contract says how its own step changes that state, and that
/// all other seats stay the same during it. It does not say which other seats exist.
#[derive(Drop)]
pub struct Claims {
    table: Table<(), View, Terms, ClaimsRule, Global>,
    pieces: u64,
}

impl Model for Claims {
    ghost use Rattle.epx_claims.specs.between.Seated.{ClaimsView};

    ghost Value = { ClaimsView };

    ghost use Rattle.epx_claims.specs.inner.ClaimsFields.{claims_view, IsOpen};

    ghost view = { claims_view };

    ghost invariant = { IsOpen };
}

impl Claims {
    /// Claims for this many pieces, and one seat whose share is all workers. Runs in constant
    /// time. `Memory` if the table cannot be allocated.
    pub fn new(alloc: Global, pieces: u64, workers: usize) -> Result<(Claims, ClaimSeat), Memory>
        requires pieces { pieces ≤ 2 ^ 40 }
        requires workers { (1 ≤ workers) × (workers ≤ 64) }
        ensures terms { IfOk result (λ c. (c.0.pieces ≡ pieces) × (c.0.workers ≡ workers)) }
        ensures seat { IfOk result (λ c. c.1 ≡ fresh_seat c.0 workers) }
        ensures claim_state { IfOk result (λ c. IsClaimState c.0 0 (c.1 ∷ [])) }
    {
        let terms = Terms { pieces, workers };
        let (table, seat) = Table::of_words(alloc, &[0], &terms)?;
        Ok((
            Claims { table, pieces },
            ClaimSeat {
                seat,
                share: workers,
                ended: false,
            },
        ))
    }

    /// Draws the next piece, or ends the seat if none is left: one `fetch_add`, in constant time.
    /// A seat that has ended takes no step.
    pub fn claim(&self, seat: &mut ClaimSeat) -> Option<u64>
        requires { IsSeatOf self.now seat.old }
        ensures some { IfSome result (λ p. (seat.old.ended ≡ false) × (p < self.now.pieces)
            × All (λ q. q < p) seat.old.drawn
            × (seat.new ≡ record seat.old { drawn = seat.old.drawn ++ p ∷ [] })) }
        ensures none { IfNone result (seat.new ≡ record seat.old { ended = true }) }
        ensures piece { IfSome result
            (λ p. ClaimStep self.now p (p + 1) (seat.old ∷ []) (seat.new ∷ [])) }
        ensures stop { IfNone result (seat.old.ended ≡ false
            → (word : ℕ) × (self.now.pieces ≤ word)
            × ClaimStep self.now word (word + 1) (seat.old ∷ []) (seat.new ∷ [])) }
        ensures ended { seat.old.ended ≡ true → (result ≡ None) × (seat.new ≡ seat.old) }
    {
        if seat.ended {
            return None;
        }
        let found = self
            .table
            .shared
            .fetch_add::<DrawStep>(&mut seat.seat, 0, 1);
        if found < self.pieces {
            Some(found)
        } else {
            seat.ended = true;
            None
        }
    }

    /// Moves half of the seat's share, rounded down, to a new seat that has drawn nothing.
    pub fn split(&self, seat: &mut ClaimSeat) -> ClaimSeat
        requires own { IsSeatOf self.now seat.old }
        requires open { seat.old.ended ≡ false }
        requires share { 2 ≤ seat.old.share }
        ensures kept { seat.new ≡ record seat.old { share = seat.old.share - seat.old.share / 2 } }
        ensures given { result ≡ fresh_seat self.now (seat.old.share / 2) }
        ensures claim_state { (word : ℕ) × ClaimStep self.now word word (seat.old ∷ [])
            (seat.new ∷ result ∷ []) }
    {
        let half = seat.share / 2;
        let shared = &self.table.shared;
        shared.load::<SplitStep>(&mut seat.seat, 0);
        let given = shared.split_seat::<SplitSeat>(&mut seat.seat);
        seat.share -= half;
        ClaimSeat {
            seat: given,
            share: half,
            ended: false,
        }
    }

    /// Adds the other seat's share and pieces to this one, which has ended if either had. No piece
    /// is in both lists.
    pub fn join(&self, seat: &mut ClaimSeat, other: ClaimSeat)
        requires own { IsSeatOf self.now seat.old }
        requires other { IsSeatOf self.now other }
        ensures both { seat.new ≡ record seat.old {
          drawn = seat.old.drawn ++ other.drawn;
          share = seat.old.share + other.share;
          ended = seat.old.ended || other.ended;
        } }
        ensures apart { (x : ℕ) → occurrences x seat.old.drawn + occurrences x other.drawn
            ≤ indicator_below x self.now.pieces }
        ensures claim_state { (word : ℕ) × ClaimStep self.now word word (seat.old ∷ other ∷ [])
            (seat.new ∷ []) }
    {
        let ClaimSeat {
            seat: theirs,
            share,
            ended,
        } = other;
        let shared = &self.table.shared;
        shared.join_seat::<JoinSeat>(&mut seat.seat, theirs);
        shared.load::<JoinStep>(&mut seat.seat, 0);
        // The state of the claims shows that the shares together are at most 64.
        seat.share += share;
        seat.ended = seat.ended || ended;
    }

    /// Frees the claims, once one seat has every share. Returns how many pieces were drawn.
    pub fn close(self, seat: ClaimSeat) -> u64
        requires own { IsSeatOf self seat }
        requires share { seat.share ≡ self.workers }
        ensures length { result ≡ length seat.drawn }
        ensures each_once { (x : ℕ) → occurrences x seat.drawn ≡ indicator_below x result }
        ensures all { seat.ended ≡ true → result ≡ self.pieces }
        ensures claim_state { (word : ℕ) × (result ≡ min word self.pieces)
            × IsClaimState self word (seat ∷ []) }
    {
        let Claims { table, pieces } = self;
        let ClaimSeat {
            seat,
            share: _,
            ended: _,
        } = seat;
        let closed = table.close_with(seat);
        let word = closed.word(0);
        closed.free();
        word.min(pieces)
    }
}
