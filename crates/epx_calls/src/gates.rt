//! A gate in which one item waits for others.
use epx_claims::Gate;
use std::sync::atomic::{AtomicBool, AtomicU64, Ordering};
use std::test::Fail;

const MAX_LOADS: u32 = 100_000_000;

/// A gate in which one item waits until all items were entered. It gives up after `MAX_LOADS`
/// loads.
#[derive(Drop)]
pub(crate) struct WaitingGate {
    waiter: usize,
    all: u64,
    entered: AtomicU64,
    gave_up: AtomicBool,
}

impl WaitingGate {
    pub(crate) fn new(waiter: usize, all: u64) -> WaitingGate {
        WaitingGate {
            waiter,
            all,
            entered: AtomicU64::new(0),
            gave_up: AtomicBool::new(false),
        }
    }

    /// Waits until all items were entered.
    pub(crate) fn wait(&self) {
        for _ in 0..MAX_LOADS {
            if self.entered.load(Ordering::SeqCst) == self.all {
                return;
            }
        }
        self.gave_up.store(true, Ordering::SeqCst);
    }

    /// Expects that all items were entered and that the waiting one saw it. If it did not, a
    /// worker may be missing because its thread could not be started.
    pub(crate) fn expect_all_entered(&self) -> Result<(), Fail> {
        if self.entered.load(Ordering::SeqCst) != self.all {
            return Err(Fail::from("not each number was entered once"));
        }
        if self.gave_up.load(Ordering::SeqCst) {
            return Err(Fail::from("a worker was missing, or out of memory for its thread"));
        }
        Ok(())
    }
}

impl Gate for WaitingGate {
    fn enter(&self, piece: usize) {
        let mark = [1, 10, 100, 1000].get(piece).copied().unwrap_or(0);
        self.entered.fetch_add(mark, Ordering::SeqCst);
        if piece == self.waiter {
            self.wait();
        }
    }
}
