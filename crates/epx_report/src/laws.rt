//! Laws about bases, lists and reports.
ghost use Rattle.epx_report.specs.Laws.{BaseOrBadBase, BaseIsNoBadBase, BaseSaysOneThing};
ghost use Rattle.epx_report.specs.Laws.{BadBaseIsBadAtOneLine};
ghost use Rattle.epx_report.specs.ListLaws.{ListOrBadList, ListIsNoBadList, ListNamesOneList};
ghost use Rattle.epx_report.specs.ListLaws.{BadListIsBadAtOneLine};
ghost use Rattle.epx_report.specs.ReportReadings.{ReportIsReadAsItSays};
ghost use Rattle.epx_report.specs.between.ReportBases.{DoneAfterExists, ReportIsABase};

/// Any bytes are a base or a bad base.
pub fn base_or_bad_base()
    ensures { BaseOrBadBase }
{}

/// A base is not a bad base.
pub fn base_is_no_bad_base()
    ensures { BaseIsNoBadBase }
{}

/// A base has only one list of done instances and one store.
pub fn base_says_one_thing()
    ensures { BaseSaysOneThing }
{}

/// A bad base is bad at only one line.
pub fn bad_base_is_bad_at_one_line()
    ensures { BadBaseIsBadAtOneLine }
{}

/// The lines of the text of a report, with or without done lines, say what it was written from.
pub fn report_is_read_as_it_says()
    ensures { ReportIsReadAsItSays }
{}

/// The instances that are done after a report can be listed by rising Id.
pub fn done_after_exists()
    ensures { DoneAfterExists }
{}

/// A report with its lines in order is a base. Its done instances are those that are done after
/// the report, and its store is the final store.
pub fn report_is_a_base()
    ensures { ReportIsABase }
{}

/// Any bytes are a list or a bad list.
pub fn list_or_bad_list()
    ensures { ListOrBadList }
{}

/// A list is not a bad list.
pub fn list_is_no_bad_list()
    ensures { ListIsNoBadList }
{}

/// A list names only one sequence of instances.
pub fn list_names_one_list()
    ensures { ListNamesOneList }
{}

/// A bad list is bad at only one line.
pub fn bad_list_is_bad_at_one_line()
    ensures { BadListIsBadAtOneLine }
{}
