//! Laws of the prefixes of lawful orders.
ghost use Rattle.epx_laws.specs.PrefixLaws.{PrefixesBeginLawfully, PrefixesReplyAlike};
ghost use Rattle.epx_laws.specs.PrefixLaws.{ClosedListsBegin};

/// What a lawful prefix begins with is a lawful prefix.
pub fn prefixes_begin_lawfully()
    ensures { PrefixesBeginLawfully }
{}

/// Over a covered map, a lawful prefix gives each of its instances the reply of every lawful
/// order.
pub fn prefixes_reply_alike()
    ensures { PrefixesReplyAlike }
{}

/// A list that is lawful for ready instances with all that they reach is a lawful prefix.
pub fn closed_lists_begin()
    ensures { ClosedListsBegin }
{}
