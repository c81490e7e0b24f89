//! Laws of refusals and accepted logs: each function's contract is a law.
ghost use Rattle.epx_merge.specs.LogLaws.{AcceptedIsNotRefused, RefusalIsUnique};
ghost use Rattle.epx_merge.specs.LogLaws.{AcceptedMapIsUnique};
ghost use Rattle.epx_merge.specs.LogLaws.{LogsHaveAnAnswer, LinesHaveDistinctPlaces};
ghost use Rattle.epx_merge.specs.LogLaws.{NamedBadLineIsLeast};

/// Accepted logs are not refused, except by running out of memory.
pub fn accepted_is_not_refused()
    ensures { AcceptedIsNotRefused }
{}

/// Logs have at most one refusal, except running out of memory.
pub fn refusal_is_unique()
    ensures { RefusalIsUnique }
{}

/// Accepted logs commit one map.
pub fn accepted_map_is_unique()
    ensures { AcceptedMapIsUnique }
{}

/// Every list of logs is accepted or refused.
pub fn logs_have_an_answer()
    ensures { LogsHaveAnAnswer }
{}

/// No two lines of logs have the same place.
pub fn lines_have_distinct_places()
    ensures { LinesHaveDistinctPlaces }
{}

/// The bad line in a refusal comes before all other bad lines.
pub fn named_bad_line_is_least()
    ensures { NamedBadLineIsLeast }
{}
