//! Laws of lists and of resumed runs. Each function has an empty body, and its contract is the law.
//! `epx_answer_laws` has the other laws of answers.
ghost use Rattle.epx_tool.specs.LawfulLists.{LawfulListExecutesAlike};
ghost use Rattle.epx_tool.specs.ResumableAnswers.{AnswerIsBase, ResumptionIsBase};
ghost use Rattle.epx_tool.specs.ResumableAnswers.{ReportOfAPartIsSound, ResumedReportIsSound};
ghost use Rattle.epx_tool.specs.ResumableAnswers.{ResumedReportRepeatsTheWhole};
ghost use Rattle.epx_tool.specs.ResumableAnswers.{LastReportIsTheWhole};

/// If logs are reported as covered, a list that is reported as lawful executes as their report
/// says.
pub fn lawful_list_executes_alike()
    ensures { LawfulListExecutesAlike }
{}

/// The report of logs is a base of the instances that it executes and of its final store.
pub fn answer_is_base()
    ensures { AnswerIsBase }
{}

/// The report of a resumed run is a base of the instances that were done before or that it
/// executes, and of its final store.
pub fn resumption_is_base()
    ensures { ResumptionIsBase }
{}

/// The report of a part of a committed map is a base that is sound for the whole map.
pub fn report_of_a_part_is_sound()
    ensures { ReportOfAPartIsSound }
{}

/// The report of a run that resumes from a sound base is a base that is sound for the same map.
pub fn resumed_report_is_sound()
    ensures { ResumedReportIsSound }
{}

/// Over covered logs, each reply of a resumed run is the reply in the report of the whole.
pub fn resumed_report_repeats_the_whole()
    ensures { ResumedReportRepeatsTheWhole }
{}

/// If all ready instances of covered logs are done in a sound base, it has the store of their
/// report.
pub fn last_report_is_the_whole()
    ensures { LastReportIsTheWhole }
{}
