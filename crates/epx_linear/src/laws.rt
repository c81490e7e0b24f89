//! Laws of histories, and of the answer about one. Each function has an empty body, and its
//! contract is a law.
ghost use Rattle.epx_linear.specs.HistoryLaws.{HistoryOrBadHistory, HistoryIsNoBadHistory};
ghost use Rattle.epx_linear.specs.HistoryLaws.{TextIsOneHistory, BadHistoryIsBadAtOneLine};
ghost use Rattle.epx_linear.specs.LinearLaws.{NoneLateKeepsRealTime, NoneFoundKeepsRealTime};
ghost use Rattle.epx_linear.specs.LinearLaws.{ChecksDecideLinear, LinearHasWitness};
ghost use Rattle.epx_linear.specs.LinearTextLaws.{LinearTextIsUnique, LinearLineMeansLinear};

/// Any bytes are a history, or have a first bad line.
pub fn history_or_bad_history()
    ensures { HistoryOrBadHistory }
{}

/// A history has no bad line.
pub fn history_is_no_bad_history()
    ensures { HistoryIsNoBadHistory }
{}

/// A text is only one history.
pub fn text_is_one_history()
    ensures { TextIsOneHistory }
{}

/// A text has only one first bad line.
pub fn bad_history_is_bad_at_one_line()
    ensures { BadHistoryIsBadAtOneLine }
{}

/// No call is late exactly if some order that keeps that of commands that conflict keeps real time.
pub fn none_late_keeps_real_time()
    ensures { NoneLateKeepsRealTime }
{}

/// Nothing is found late exactly if some order that keeps that of commands that conflict keeps
/// real time.
pub fn none_found_keeps_real_time()
    ensures { NoneFoundKeepsRealTime }
{}

/// A history is linear exactly if `check_answers` finds each answer the same, and `late_calls`
/// finds nothing.
pub fn checks_decide_linear()
    ensures { ChecksDecideLinear }
{}

/// What is linear has a serial execution with the same answers that keeps real time.
pub fn linear_has_witness()
    ensures { LinearHasWitness }
{}

/// There is at most one answer about a history, over a committed map.
pub fn linear_text_is_unique()
    ensures { LinearTextIsUnique }
{}

/// The answer is `["linear"]` alone exactly if the history is linear over the execution order.
pub fn linear_line_means_linear()
    ensures { LinearLineMeansLinear }
{}
