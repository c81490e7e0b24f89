//! Laws of what `lawful` and `covered` say in an answer, and of what answers find.
ghost use Rattle.epx_answer_laws.specs.AnswerLaws.{CoveredTextMeansCovered};
ghost use Rattle.epx_answer_laws.specs.CheckLaws.{LawfulTextMeansLawful, LawfulTextMeansPrefix};
ghost use Rattle.epx_answer_laws.specs.CheckLaws.{LawfulPrefixRepliesAlike, LawfulTextMeansRight};
ghost use Rattle.epx_answer_laws.specs.CheckLaws.{LinearTextMeansLinear};
ghost use Rattle.epx_answer_laws.specs.CheckLaws.{WholeListsAreAnsweredAlike, LawfulPrefixesStay};
ghost use Rattle.epx_answer_laws.specs.FindingLaws.{AuditFindsNotCovered, CheckFindsNotLawful};

use epx_laws::replicas::prefixes_stay;
use epx_verify::laws::{no_difference_if_right, text_says_one_thing};

/// The audit of logs says that they are covered exactly if they are.
pub fn covered_text_means_covered()
    ensures { CoveredTextMeansCovered }
{}

/// A list is reported as lawful exactly if it is a lawful order of what the logs commit.
pub fn lawful_text_means_lawful()
    ensures { LawfulTextMeansLawful }
{}

/// A list that is checked as a prefix is reported as lawful exactly if a lawful order of what
/// the logs commit begins with it.
pub fn lawful_text_means_prefix()
    ensures { LawfulTextMeansPrefix }
{}

/// If logs are reported as covered, a list that is reported as lawful as a prefix replies as
/// their report says.
pub fn lawful_prefix_replies_alike()
    ensures { LawfulPrefixRepliesAlike }
{}

/// What a replica said is reported as lawful, and as nothing else, exactly if a lawful order begins
/// with its instances, and its replies and its store are right.
pub fn lawful_text_means_right()
    ensures { LawfulTextMeansRight }
{
    text_says_one_thing();
    no_difference_if_right();
}

/// The calls of clients are reported as linear exactly if they are, over the execution order and
/// its replies.
pub fn linear_text_means_linear()
    ensures { LinearTextMeansLinear }
{}

/// A list of all ready instances has the same answer as a prefix and as an order.
pub fn whole_lists_are_answered_alike()
    ensures { WholeListsAreAnsweredAlike }
{}

/// A list that logs call a lawful prefix is called so by all accepted logs that have their
/// lines.
pub fn lawful_prefixes_stay()
    ensures { LawfulPrefixesStay }
{
    prefixes_stay();
}

/// An audit finds something exactly if the logs are not covered.
pub fn audit_finds_not_covered()
    ensures { AuditFindsNotCovered }
{}

/// A check finds something exactly if the list is not a lawful order, or, checked as a prefix,
/// not a prefix of one.
pub fn check_finds_not_lawful()
    ensures { CheckFindsNotLawful }
{}
