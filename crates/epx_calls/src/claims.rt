//! Claims in a known order, and parallel maps whose workers wait for one another.
ghost use Rattle.std.specs.Prelude.{◌≡◌, ◌<◌, ◌≤◌, ◌*◌, ℕ, Some, length, slice_get, IfOk};

use crate::gates::WaitingGate;
use epx_claims::{Claims, FreeGate, Gate, claimed_map, claimed_map_after};
use epx_types::{Memory, Plan};
use std::alloc::Global;
use std::process::Abort;
use std::test::Fail;
use std::thread::Threads;

/// The caller's own error type.
#[derive(Debug, PartialEq, Drop)]
enum CallerError {
    NoMemory,
    At(usize),
}

impl From<Memory> for CallerError {
    fn from(_memory: Memory) -> CallerError {
        CallerError::NoMemory
    }
}

fn ten_times(i: usize) -> Result<usize, Memory>
    requires { i < 100 }
    ensures { IfOk result (λ x. x ≡ 10 * i) }
{
    Ok(10 * i)
}

/// A caller whose contract states each answer.
fn map_to_tens<R: Threads + Sync, G: Gate + Sync>(
    rt: &R,
    alloc: Global,
    n: usize,
    plan: Plan,
    gate: &G,
) -> Result<Vec<usize>, Memory>
    requires { n ≤ 100 }
    ensures { IfOk result (λ v. (i : ℕ) → i < n → slice_get v.items i ≡ Some (10 * i)) }
{
    claimed_map(rt, alloc, n, plan, gate, |i| ten_times(i))
}

/// Maps the numbers to ten times themselves, while one waits in the gate until all were entered.
fn maps_while_one_waits<R: Threads + Sync + Abort>(
    rt: &R,
    alloc: Global,
    workers: usize,
    wanted: &[usize],
    waiter: usize,
    all: u64,
) -> Result<(), Fail>
    requires { length wanted.now ≤ 100 }
{
    let plan = Plan::new(workers, 1).ok_or("a plan")?;
    let gate = WaitingGate::new(waiter, all);
    let answers = map_to_tens(rt, alloc, wanted.len(), plan, &gate)?;
    assert!(rt; answers.as_slice() == wanted);
    gate.expect_all_entered()
}

/// Maps the numbers to ten times themselves, or to an error at one of them. One thread counts
/// something before.
fn maps_after_one_call<R: Threads + Sync + Abort>(
    rt: &R,
    alloc: Global,
    workers: usize,
    wanted: &[usize],
    bad: usize,
) -> Result<(), Fail>
    requires { length wanted.now ≤ 100 }
{
    let plan = Plan::new(workers, 1).ok_or("a plan")?;
    let mut calls: usize = 0;
    let mut first = || -> usize {
        calls = calls.wrapping_add(1);
        calls
    };
    let (given, answer) = claimed_map_after(
        rt,
        alloc,
        wanted.len(),
        plan,
        &FreeGate,
        &mut first,
        |i| -> Result<usize, CallerError>
            requires { i < 100 }
        {
            if i == bad {
                Err(CallerError::At(i))
            } else {
                Ok(10 * i)
            }
        },
    );
    assert!(rt; given == 1 && calls == 1);
    match &answer {
        Ok(values) => assert!(rt; bad >= wanted.len() && values.as_slice() == wanted),
        Err(CallerError::NoMemory) => return Err(Fail::from("out of memory")),
        Err(trouble) => assert!(rt; bad < wanted.len() && *trouble == CallerError::At(bad)),
    }
    Ok(())
}

/// Maps the numbers below n to their successors, or to an error at one of them.
fn maps_to_the_next<R: Threads + Sync + Abort>(
    rt: &R,
    alloc: Global,
    workers: usize,
    n: usize,
    bad: usize,
    wanted: Result<&[usize], CallerError>,
) -> Result<(), Fail>
    requires { n ≤ 100 }
{
    let plan = Plan::new(workers, 1).ok_or("a plan")?;
    let answer = claimed_map(
        rt,
        alloc,
        n,
        plan,
        &FreeGate,
        |i| -> Result<usize, CallerError>
            requires { i < 100 }
        {
            if i == bad {
                Err(CallerError::At(i))
            } else {
                Ok(i + 1)
            }
        },
    );
    match (&answer, &wanted) {
        (Ok(values), Ok(wanted)) => assert!(rt; values.as_slice() == *wanted),
        (Err(CallerError::NoMemory), _) => return Err(Fail::from("out of memory")),
        (Err(trouble), Err(wanted)) => assert!(rt; trouble == wanted),
        _ => panic!(rt; "another kind of answer"),
    }
    Ok(())
}

#[test]
fn two_seats_draw_three_pieces(rt: HostRuntime) -> Result<(), Fail> {
    let (claims, mut a) = Claims::new(rt.alloc(), 3, 2)?;
    let mut b = claims.split(&mut a);
    assert!(rt; a.share() == 1 && b.share() == 1);
    assert!(rt; claims.claim(&mut a) == Some(0));
    assert!(rt; claims.claim(&mut b) == Some(1));
    assert!(rt; claims.claim(&mut b) == Some(2));
    assert!(rt; claims.claim(&mut a).is_none());
    assert!(rt; claims.claim(&mut b).is_none());
    assert!(rt; claims.claim(&mut a).is_none());
    claims.join(&mut a, b);
    assert!(rt; a.share() == 2 && a.ended());
    let drawn = claims.close(a);
    assert!(rt; drawn == 3);
    Ok(())
}

#[test]
fn no_piece_stops_the_first_draw(rt: HostRuntime) -> Result<(), Fail> {
    let (claims, mut seat) = Claims::new(rt.alloc(), 0, 1)?;
    assert!(rt; claims.claim(&mut seat).is_none());
    let drawn = claims.close(seat);
    assert!(rt; drawn == 0);
    Ok(())
}

#[test]
fn claims_may_close_early(rt: HostRuntime) -> Result<(), Fail> {
    let (claims, mut seat) = Claims::new(rt.alloc(), 5, 1)?;
    assert!(rt; claims.claim(&mut seat) == Some(0));
    assert!(rt; claims.claim(&mut seat) == Some(1));
    assert!(rt; !seat.ended());
    let drawn = claims.close(seat);
    assert!(rt; drawn == 2);
    Ok(())
}

#[test]
fn nothing_at_all(rt: HostRuntime) -> Result<(), Fail> {
    maps_to_the_next(&rt, rt.alloc(), 2, 0, 9, Ok(&[]))
}

#[test]
fn any_number_of_workers_over_five_numbers(rt: HostRuntime) -> Result<(), Fail> {
    for workers in [1, 2, 64] {
        maps_to_the_next(&rt, rt.alloc(), workers, 5, 9, Ok(&[1, 2, 3, 4, 5]))?;
    }
    Ok(())
}

#[test]
fn the_callers_error_from_any_number_of_workers(rt: HostRuntime) -> Result<(), Fail> {
    for workers in [1, 2, 64] {
        maps_to_the_next(&rt, rt.alloc(), workers, 5, 3, Err(CallerError::At(3)))?;
    }
    Ok(())
}

#[test]
fn one_worker_passes_the_gate_for_each_number(rt: HostRuntime) -> Result<(), Fail> {
    maps_while_one_waits(&rt, rt.alloc(), 1, &[0, 10, 20, 30], 3, 1111)
}

#[test]
fn threads_really_run(rt: HostRuntime) -> Result<(), Fail> {
    maps_while_one_waits(&rt, rt.alloc(), 2, &[0, 10], 0, 11)
}

#[test]
fn others_continue_while_one_waits(rt: HostRuntime) -> Result<(), Fail> {
    for waiter in 0..4 {
        maps_while_one_waits(&rt, rt.alloc(), 2, &[0, 10, 20, 30], waiter, 1111)?;
    }
    Ok(())
}

#[test]
fn one_call_before_any_number_is_drawn(rt: HostRuntime) -> Result<(), Fail> {
    for workers in [1, 2, 3, 4, 5, 7, 64] {
        for bad in [0, 4, 9] {
            maps_after_one_call(&rt, rt.alloc(), workers, &[], bad)?;
            maps_after_one_call(&rt, rt.alloc(), workers, &[0], bad)?;
            maps_after_one_call(&rt, rt.alloc(), workers, &[0, 10, 20, 30, 40, 50], bad)?;
        }
    }
    Ok(())
}

#[test]
fn others_draw_while_the_call_before_waits(rt: HostRuntime) -> Result<(), Fail> {
    let plan = Plan::new(2, 1).ok_or("a plan")?;
    let gate = WaitingGate::new(4, 1111);
    let mut first = || gate.wait();
    let ((), answer) = claimed_map_after(
        &rt,
        rt.alloc(),
        4,
        plan,
        &gate,
        &mut first,
        |i| ten_times(i),
    );
    let values = answer?;
    assert!(rt; values.as_slice() == [0, 10, 20, 30].as_slice());
    gate.expect_all_entered()
}
