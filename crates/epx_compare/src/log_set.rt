//! A set of logs.
ghost use Rattle.std.specs.Prelude.{◌≡◌, ◌<◌, ◌==◌, ◌||◌, ℕ, false};
ghost use Rattle.epx_types.specs.Limits.{max_logs};
ghost use Rattle.epx_compare.specs.inner.LogMarks.{has_log};

/// A set of logs: a bit for each log, of which there are at most 64.
#[derive(Clone, Copy, Debug)]
pub(crate) struct LogSet {
    pub(crate) bits: u64,
}

impl LogSet {
    /// The set of no logs.
    pub(crate) fn empty() -> LogSet
        ensures { (log : ℕ) → has_log log result ≡ false }
    {
        LogSet { bits: 0 }
    }

    /// Adds a log.
    pub(crate) fn insert(&mut self, log: usize)
        requires { log < max_logs }
        ensures { (l : ℕ) → has_log l self.new ≡ (has_log l self.old || (log == l)) }
    {
        self.bits |= 1 << log;
    }

    /// Whether the log is in the set.
    pub(crate) fn contains(self, log: usize) -> bool
        requires { log < max_logs }
        ensures { result ≡ has_log log self }
    {
        (self.bits >> log) & 1 == 1
    }
}
