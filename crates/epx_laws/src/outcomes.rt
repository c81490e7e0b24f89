//! Laws of what becomes of each committed instance.
ghost use Rattle.epx_laws.specs.OutcomeLaws.{ExecutedOrWaiting};

/// Each committed instance is executed or waits, never both, and once.
pub fn executed_or_waiting()
    ensures { ExecutedOrWaiting }
{}
