//! Laws of states. Each contract is a law.
ghost use Rattle.epx_state.specs.StateLaws.{StateIsUnique, RestoredHoldTheSame};
ghost use Rattle.epx_state.specs.StateLaws.{StartedHoldTheSame, StateOfAnExecutorIsGood};

/// Bytes are a state in at most one way.
pub fn state_is_unique()
    ensures { StateIsUnique }
{}

/// Executors that hold the parts of one state hold the same, whatever the order of their executed
/// instances.
pub fn restored_hold_the_same()
    ensures { RestoredHoldTheSame }
{}

/// The state of an executor is refused only where memory runs out.
pub fn state_of_an_executor_is_good()
    ensures { StateOfAnExecutorIsGood }
{}

/// Executors that go on from the same bytes, be they a state or a report, hold the same.
pub fn started_hold_the_same()
    ensures { StartedHoldTheSame }
{}
