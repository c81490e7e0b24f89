//! Laws of answers: there is one answer to each question, and the same lines have the same one.
ghost use Rattle.epx_answer_laws.specs.AnswerLaws.{ReportExists, MapTextExists, ReportIsUnique};
ghost use Rattle.epx_answer_laws.specs.AnswerLaws.{OrderTextIsUnique, LevelTextIsUnique};
ghost use Rattle.epx_answer_laws.specs.AnswerLaws.{AuditTextIsUnique, AnswerExists, ViewExists};
ghost use Rattle.epx_answer_laws.specs.AnswerLaws.{AnswerIsUnique, ViewIsUnique};
ghost use Rattle.epx_answer_laws.specs.InputAnswerLaws.{InputAnswerExists, InputAnswerIsUnique};
ghost use Rattle.epx_answer_laws.specs.SameLineLaws.{SameLinesAreAcceptedAlike};
ghost use Rattle.epx_answer_laws.specs.SameLineLaws.{SameLinesAreAnsweredAlike};

use epx_neighbours::laws::{uncovered_text_exists, uncovered_text_is_unique};
use epx_picture::laws::picture_around_exists;
use epx_verify::laws::{
    bad_said_is_bad_at_one_line, said_is_no_bad_said, said_or_bad_said, text_says_one_thing,
};

/// A committed map has a report.
pub fn report_exists()
    ensures { ReportExists }
{}

/// A committed map has a text of its execution order, a text of its conflict levels, a text of its
/// audit and of all uncovered pairs, a picture, also around each instance, a text about each
/// instance, a text of a path between each two, and a text of the trace of each key.
pub fn map_text_exists()
    ensures { MapTextExists }
{
    picture_around_exists();
    uncovered_text_exists();
}

/// A committed map has at most one report.
pub fn report_is_unique()
    ensures { ReportIsUnique }
{}

/// A committed map has at most one text of its execution order.
pub fn order_text_is_unique()
    ensures { OrderTextIsUnique }
{}

/// A committed map has at most one text of its conflict levels.
pub fn level_text_is_unique()
    ensures { LevelTextIsUnique }
{}

/// A committed map has at most one text of its audit.
pub fn audit_text_is_unique()
    ensures { AuditTextIsUnique }
{}

/// Every list of logs has an answer other than out of memory.
pub fn answer_exists()
    ensures { AnswerExists }
{}

/// Every list of logs has an answer to each view other than out of memory.
pub fn view_exists()
    ensures { ViewExists }
{
    picture_around_exists();
    uncovered_text_exists();
}

/// Logs have at most one answer, except for out of memory.
pub fn answer_is_unique()
    ensures { AnswerIsUnique }
{}

/// Logs have at most one answer to each view, except for out of memory.
pub fn view_is_unique()
    ensures { ViewIsUnique }
{
    text_says_one_thing();
    uncovered_text_is_unique();
}

/// An input and logs have an answer to each question about both, other than out of memory.
pub fn input_answer_exists()
    ensures { InputAnswerExists }
{
    said_or_bad_said();
    picture_around_exists();
    uncovered_text_exists();
}

/// An input and logs have at most one answer to each question about both, except for out of memory.
pub fn input_answer_is_unique()
    ensures { InputAnswerIsUnique }
{
    text_says_one_thing();
    uncovered_text_is_unique();
    said_is_no_bad_said();
    bad_said_is_bad_at_one_line();
}

/// Neither the order of logs and lines nor repeated lines change whether logs are accepted, and
/// what they commit.
pub fn same_lines_are_accepted_alike()
    ensures { SameLinesAreAcceptedAlike }
{}

/// Neither do they change a text of the committed map.
pub fn same_lines_are_answered_alike()
    ensures { SameLinesAreAnsweredAlike }
{}
