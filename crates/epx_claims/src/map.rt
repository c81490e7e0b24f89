//! A parallel map whose workers draw the numbers that they work on.
ghost use Rattle.std.specs.Prelude.{◌≡◌, ◌<◌, ◌≤◌, ◌^◌, ◌++◌, ◌∷◌, [], ℕ, true, IfOk, IfErr};
ghost use Rattle.epx_claims.specs.between.Answered.{AreOrderedAnswers, IsMapFault};
ghost use Rattle.epx_claims.specs.inner.WorkResult.{AreFresh, HasAnswers, shares};
ghost use Rattle.epx_types.specs.declared.memory.Memory.{Memory};

use crate::claims::Claims;
use crate::first_call::{LentClosure, tie_loan};
use crate::gate::Gate;
use crate::seat::ClaimSeat;
use crate::seats::split_off;
use crate::values_by_number::values_by_number;
use crate::work::{WorkResult, draw_with_seats};
use epx_types::{Memory, Plan};
use std::alloc::Global;
use std::thread::Threads;

/// The answers of `f` for all numbers below `n`, in order.
///
/// The plan's workers draw the numbers. The caller's thread is one of them, and each other has its
/// own thread if one can be started. With one worker, or at most one number, the caller's thread
/// does all the work. A worker enters the gate once for each number, before it calls `f`. The
/// plan's cut is not used. An error is one that `f` returned, or out of memory.
pub fn claimed_map<
    R: Threads + Sync,
    T: Send + Drop,
    E: From<Memory> + Send + Drop,
    G: Gate + Sync,
    F: Fn(usize) -> Result<T, E> + Sync + Drop,
>(rt: &R, alloc: Global, n: usize, plan: Plan, gate: &G, f: F) -> Result<Vec<T>, E>
    requires n { n ≤ 2 ^ 40 }
    requires calls { (i : ℕ) → i < n → F.pre f i }
    ensures ok { IfOk result (λ v. AreOrderedAnswers (λ i x. F.post f i (Ok x)) n v.items) }
    ensures err { IfErr result
        (IsMapFault (λ i e. F.post f i (Err e)) (λ e. (m : Memory) × E.from_gives m e) n) }
{
    claimed_map_after(rt, alloc, n, plan, gate, &mut || (), f).1
}

/// What `first` returned, and the answers of `f` for all numbers below `n`, in order.
///
/// The caller's thread calls `first` once before it draws numbers, while the other workers draw
/// them already. With one worker, or at most one number, `first` is called before any work.
/// Workers, gate and errors are those of `claimed_map`.
pub fn claimed_map_after<
    R: Threads + Sync,
    T: Send + Drop,
    E: From<Memory> + Send + Drop,
    G: Gate + Sync,
    F: Fn(usize) -> Result<T, E> + Sync + Drop,
    M: FnMut() -> A,
    A,
>(
    rt: &R,
    alloc: Global,
    n: usize,
    plan: Plan,
    gate: &G,
    first: &mut M,
    f: F,
) -> (A, Result<Vec<T>, E>)
    requires n { n ≤ 2 ^ 40 }
    requires calls { (i : ℕ) → i < n → F.pre f i }
    requires first { M.pre first.old }
    ensures first { M.step first.old result.0 first.new }
    ensures ok { IfOk result.1 (λ v. AreOrderedAnswers (λ i x. F.post f i (Ok x)) n v.items) }
    ensures err { IfErr result.1
        (IsMapFault (λ i e. F.post f i (Err e)) (λ e. (m : Memory) × E.from_gives m e) n) }
{
    let workers = plan.workers().min(n);
    if n <= 1 || workers == 1 {
        return (first(), plain_map(alloc, n, gate, &f));
    }
    match seats_of(alloc, n, workers) {
        Ok((claims, seat, others)) => {
            let task = LentClosure { f: first };
            let ((first, given), worked) = draw_with_seats(
                rt, alloc, &claims, seat, others, gate, &f, task,
            );
            tie_loan(first);
            (given, values_of(alloc, claims, worked, &f))
        }
        Err(memory) => (first(), Err(E::from(memory))),
    }
}

/// Claims for the numbers below `n`, with a seat for each worker, that of the caller's thread
/// first.
fn seats_of(
    alloc: Global,
    n: usize,
    workers: usize,
) -> Result<(Claims, ClaimSeat, Vec<ClaimSeat>), Memory>
    requires n { n ≤ 2 ^ 40 }
    requires workers { (1 ≤ workers) × (workers ≤ 64) }
    ensures pieces { IfOk result (λ c. c.0.pieces ≡ n) }
    ensures fresh { IfOk result (λ c. AreFresh c.0 (c.1 ∷ c.2.items)) }
    ensures shares { IfOk result (λ c. shares (c.1 ∷ c.2.items) ≡ c.0.workers) }
{
    let (claims, mut seat) = Claims::new(alloc, n as u64, workers)?;
    let mut others = Vec::new(alloc);
    split_off(&claims, &mut seat, &mut others)?;
    Ok((claims, seat, others))
}

/// The values of all numbers, in order, from the joined results of all workers.
fn values_of<T: Drop, E: From<Memory> + Drop, F: Fn(usize) -> Result<T, E>>(
    alloc: Global,
    claims: Claims,
    worked: Result<WorkResult<T>, E>,
    f: &F,
) -> Result<Vec<T>, E>
    requires { IfOk worked (λ w. HasAnswers (λ i x. F.post f.now i (Ok x)) claims claims.workers
        true w.seat w.answers.items) }
    ensures ok { IfOk result
        (λ v. AreOrderedAnswers (λ i x. F.post f.now i (Ok x)) claims.pieces v.items) }
    ensures err { IfErr worked
        (IsMapFault (λ i e. F.post f.now i (Err e)) (λ e. (m : Memory) × E.from_gives m e)
        claims.pieces)
        → IfErr result
        (IsMapFault (λ i e. F.post f.now i (Err e)) (λ e. (m : Memory) × E.from_gives m e)
        claims.pieces) }
{
    let WorkResult { seat, answers } = worked?;
    let drawn = claims.close(seat);
    Ok(values_by_number(alloc, drawn as usize, answers, f)?)
}

/// The answers of `f` for all numbers below `n`, in order, computed by the caller's thread alone.
fn plain_map<T: Drop, E: From<Memory> + Drop, G: Gate, F: Fn(usize) -> Result<T, E>>(
    alloc: Global,
    n: usize,
    gate: &G,
    f: &F,
) -> Result<Vec<T>, E>
    requires calls { (i : ℕ) → i < n → F.pre f.now i }
    ensures ok { IfOk result (λ v. AreOrderedAnswers (λ i x. F.post f.now i (Ok x)) n v.items) }
    ensures err { IfErr result
        (IsMapFault (λ i e. F.post f.now i (Err e)) (λ e. (m : Memory) × E.from_gives m e) n) }
{
    let mut values = Vec::new(alloc);
    for i in 0..n {
        gate.enter(i);
        let value = f(i)?;
        push_value(&mut values, value)?;
    }
    Ok(values)
}

/// Appends a value, which is dropped if memory runs out.
fn push_value<T: Drop>(values: &mut Vec<T>, value: T) -> Result<(), Memory>
    ensures { IfOk result (λ _. values.new.items ≡ values.old.items ++ value ∷ []) }
{
    values.push(value)?;
    Ok(())
}
