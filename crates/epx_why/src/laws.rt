//! Laws of the texts: each function has an empty body, and its contract is the law.
ghost use Rattle.epx_why.specs.WhyLaws.{PathTextExists, PathTextIsUnique};
ghost use Rattle.epx_why.specs.WhyLaws.{WhyTextExists, WhyTextIsUnique};
ghost use Rattle.epx_why.specs.WhyLaws.{NeedsBeginWithTheMissing, NeedingInstancesWait};

/// Each instance has a text that says why.
pub fn why_text_exists()
    ensures { WhyTextExists }
{}

/// An instance has at most one text that says why.
pub fn why_text_is_unique()
    ensures { WhyTextIsUnique }
{}

/// Each two instances have a text of a path.
pub fn path_text_exists()
    ensures { PathTextExists }
{}

/// Two instances have at most one text of a path.
pub fn path_text_is_unique()
    ensures { PathTextIsUnique }
{}

/// What a waiting instance needs begins with the missing instance that it waits for.
pub fn needs_begin_with_the_missing()
    ensures { NeedsBeginWithTheMissing }
{}

/// Each instance that needs a missing one waits.
pub fn needing_instances_wait()
    ensures { NeedingInstancesWait }
{}
