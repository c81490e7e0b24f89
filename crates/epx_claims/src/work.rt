//! The workers of a parallel map: each draws pieces until none is left.
ghost use Rattle.std.specs.Prelude.{◌≡◌, ◌<◌, ◌+◌, ◌++◌, ◌||◌, ◌∷◌, [], ℕ, true, IfOk, IfErr};
ghost use Rattle.std.specs.Thread.{IsSync, IsSend};
ghost use Rattle.epx_claims.specs.between.Seated.{IsSeatOf};
ghost use Rattle.epx_claims.specs.between.Answered.{IsMapFault};
ghost use Rattle.epx_claims.specs.inner.WorkResult.{AreFresh, HasAnswers, IsFresh, shares};
ghost use Rattle.epx_types.specs.declared.memory.Memory.{Memory};

use crate::claims::Claims;
use crate::first_call::FirstCall;
use crate::gate::Gate;
use crate::seat::ClaimSeat;
use epx_types::Memory;
use std::alloc::Global;
use std::thread::{Threads, join};

/// A piece, and the value that the map's function returned for it.
#[derive(Drop)]
pub(crate) struct PieceValue<T> {
    pub(crate) piece: usize,
    pub(crate) value: T,
}

/// The result of one part of the work: its seat, and the answers for the pieces that it drew.
#[derive(Drop)]
pub(crate) struct WorkResult<T> {
    pub(crate) seat: ClaimSeat,
    pub(crate) answers: Vec<PieceValue<T>>,
}

/// One worker: draws until no piece is left, or until an error.
fn draw_all<T: Drop, E: From<Memory> + Drop, G: Gate, F: Fn(usize) -> Result<T, E>>(
    alloc: Global,
    claims: &Claims,
    seat: ClaimSeat,
    gate: &G,
    f: &F,
) -> Result<WorkResult<T>, E>
    requires seat { IsFresh claims.now seat.share seat }
    requires calls { (i : ℕ) → i < claims.now.pieces → F.pre f.now i }
    ensures ok { IfOk result
        (λ w. HasAnswers (λ i x. F.post f.now i (Ok x)) claims.now seat.share true w.seat
        w.answers.items) }
    ensures err { IfErr result
        (IsMapFault (λ i e. F.post f.now i (Err e)) (λ e. (m : Memory) × E.from_gives m e)
        claims.now.pieces) }
{
    let mut seat = seat;
    let mut answers = Vec::new(alloc);
    while let Some(drawn) = claims.claim(&mut seat) {
        let piece = drawn as usize;
        gate.enter(piece);
        let value = f(piece)?;
        push_answer(&mut answers, PieceValue { piece, value })?;
    }
    Ok(WorkResult { seat, answers })
}

/// Appends an answer, which is dropped if memory runs out.
fn push_answer<T: Drop>(
    answers: &mut Vec<PieceValue<T>>,
    answer: PieceValue<T>,
) -> Result<(), Memory>
    ensures { IfOk result (λ _. answers.new.items ≡ answers.old.items ++ answer ∷ []) }
{
    answers.push(answer)?;
    Ok(())
}

/// Joins the seats and the answers of two parts of the work.
fn join_results<T: Drop>(
    claims: &Claims,
    left: WorkResult<T>,
    right: WorkResult<T>,
) -> Result<WorkResult<T>, Memory>
    requires left { IsSeatOf claims.now left.seat }
    requires right { IsSeatOf claims.now right.seat }
    ensures seat { IfOk result
        (λ w. w.seat ≡ record left.seat {
          drawn = left.seat.drawn ++ right.seat.drawn;
          share = left.seat.share + right.seat.share;
          ended = left.seat.ended || right.seat.ended;
        }) }
    ensures answers { IfOk result
        (λ w. w.answers.items ≡ left.answers.items ++ right.answers.items) }
{
    let WorkResult {
        mut seat,
        mut answers,
    } = left;
    let WorkResult {
        seat: other,
        answers: mut others,
    } = right;
    claims.join(&mut seat, other);
    answers.append(&mut others)?;
    Ok(WorkResult { seat, answers })
}

/// One worker draws with each seat: this thread with the first one, after the first call, and
/// with each of the others a thread of its own, if one can be started. Joins the seats and the
/// answers.
#[cycle(workers)]
pub(crate) fn draw_with_seats<
    R: Threads + Sync,
    T: Send + Drop,
    E: From<Memory> + Send + Drop,
    G: Gate + Sync,
    F: Fn(usize) -> Result<T, E> + Sync,
    K: FirstCall<Output = A> + Drop,
    A,
>(
    rt: &R,
    alloc: Global,
    claims: &Claims,
    seat: ClaimSeat,
    others: Vec<ClaimSeat>,
    gate: &G,
    f: &F,
    task: K,
) -> (A, Result<WorkResult<T>, E>)
    requires seats { AreFresh claims.now (seat ∷ others.items) }
    requires calls { (i : ℕ) → i < claims.now.pieces → F.pre f.now i }
    requires task { K.can_run task }
    ensures task { K.run_gives task result.0 }
    ensures ok { IfOk result.1
        (λ w. HasAnswers (λ i x. F.post f.now i (Ok x)) claims.now (shares (seat ∷ others.items))
        true w.seat w.answers.items) }
    ensures err { IfErr result.1
        (IsMapFault (λ i e. F.post f.now i (Err e)) (λ e. (m : Memory) × E.from_gives m e)
        claims.now.pieces) }
{
    // This thread starts all others: one that waits for a processor would start its own late.
    let mut others = others;
    let Some(other) = others.pop() else {
        let given = task.run();
        return (given, draw_all(alloc, claims, seat, gate, f));
    };
    let theirs = move || -> Result<WorkResult<T>, E>
        requires { IsSync G.row × IsSync F.row × IsSend T.row × IsSend E.row
            × IsFresh claims.now other.share other
            × ((i : ℕ) → i < claims.now.pieces → F.pre f.now i) }
        ensures ok { IfOk result
            (λ w. HasAnswers (λ i x. F.post f.entry.now i (Ok x)) claims.entry.now other.share true
            w.seat w.answers.items) }
        ensures err { IfErr result
            (IsMapFault (λ i e. F.post f.entry.now i (Err e))
            (λ e. (m : Memory) × E.from_gives m e) claims.entry.now.pieces) }
    { draw_all(alloc, claims, other, gate, f) };
    let mine = move || -> (A, Result<WorkResult<T>, E>)
        requires { IsSync R.row × IsSync G.row × IsSync F.row × IsSend T.row × IsSend E.row
            × AreFresh claims.now (seat ∷ others.items) × K.can_run task
            × ((i : ℕ) → i < claims.now.pieces → F.pre f.now i) }
        ensures task { K.run_gives task result.0 }
        ensures ok { IfOk result.1
            (λ w. HasAnswers (λ i x. F.post f.entry.now i (Ok x)) claims.entry.now
            (shares (seat ∷ others.items)) true w.seat w.answers.items) }
        ensures err { IfErr result.1
            (IsMapFault (λ i e. F.post f.entry.now i (Err e))
            (λ e. (m : Memory) × E.from_gives m e) claims.entry.now.pieces) }
    { draw_with_seats(rt, alloc, claims, seat, others, gate, f, task) };
    let (left, (given, right)) = join(rt, theirs, mine);
    let left = match left {
        Ok(left) => left,
        Err(error) => return (given, Err(error)),
    };
    let right = match right {
        Ok(right) => right,
        Err(error) => return (given, Err(error)),
    };
    match join_results(claims, left, right) {
        Ok(both) => (given, Ok(both)),
        Err(memory) => (given, Err(E::from(memory))),
    }
}
