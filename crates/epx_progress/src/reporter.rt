//! The thread that says what is done while an answer is made.
ghost use Rattle.epx_claims.specs.between.Seated.{IsSeatOf};

use epx_claims::{ClaimSeat, Claims};
use std::io::Eprint;
use std::rt::Clock;
use std::thread;
use std::time::{Duration, Instant};

/// A run that takes fewer milliseconds shows nothing.
pub(crate) const SECOND: u64 = 1000;

/// How often the thread looks at most whether the answer is made. With pauses of a 200th of the
/// time that has passed this is enough for a day.
pub(crate) const POLLS: u64 = 4096;

/// The shortest pause, in microseconds.
const SHORTEST: u64 = 500;

/// Writes a line over the one that is there.
pub(crate) fn write_line(rt: &impl Eprint, doing: &str) {
    let _printed = eprint!(rt; "\repx: {doing}\x1b[K");
}

/// Erases the line.
pub(crate) fn erase(rt: &impl Eprint) {
    let _printed = eprint!(rt; "\r\x1b[K");
}

/// Says what is done once a second has passed, until no piece is left to draw: the other thread
/// draws the rest once the answer is made. Returns whether a line is there. That thread waits for
/// this one at most a 200th of the time that has passed, or the shortest pause.
pub(crate) fn report<R: Clock + Eprint>(
    rt: &R,
    start: Instant,
    doing: &str,
    claims: &Claims,
    seat: ClaimSeat,
) -> bool
    requires { IsSeatOf claims.now seat }
{
    let mut seat = seat;
    let mut is_there = false;
    for _ in 0..=POLLS {
        if claims.claim(&mut seat).is_none() {
            return is_there;
        }
        let Ok(elapsed) = start.elapsed(rt) else {
            return is_there;
        };
        if !is_there && elapsed >= Duration::from_millis(SECOND) {
            write_line(rt, doing);
            is_there = true;
        }
        thread::sleep(rt, (elapsed / 200).max(Duration::from_micros(SHORTEST)));
    }
    is_there
}

/// Draws the pieces that are left, which ends the other thread.
pub(crate) fn use_up(claims: &Claims, seat: ClaimSeat)
    requires { IsSeatOf claims.now seat }
{
    let mut seat = seat;
    for _ in 0..=POLLS {
        if claims.claim(&mut seat).is_none() {
            return;
        }
    }
}
