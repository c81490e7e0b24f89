//! The task that a subcommand asks for.
ghost use Rattle.std.specs.Prelude.{◌≡◌, ◌≢◌, ◌↔◌, ℕ, None, Some, codes, true, IfNone, IfSome};
ghost use Rattle.clap.specs.Words.{found_of, one_of, rows_of};
ghost use Rattle.epx_words.specs.Requests.{FitsRows, IsStepsOf, task_name};
ghost use Rattle.epx_words.specs.Subjects.{IsNumberName, NameIds, NamesKey, NamesPart};
ghost use Rattle.epx_words.specs.Subjects.{NamesSubject};
ghost use Rattle.epx_words.specs.SubcommandRows.{HasFlag, IsNumberIn, IsTaskName, around_in};
ghost use Rattle.epx_words.specs.SubcommandRows.{max_skew, steps_in};

use clap::ArgMatches;
use epx_names::{KeyName, Task, read_id, read_number};

/// Whether a flag is there. Subcommands that have no such flag never have it.
pub(crate) fn has_flag(matches: &ArgMatches<'_>, flag: &str) -> bool
    ensures { (result ≡ true) ↔ HasFlag flag.now (rows_of (found_of matches.now)) }
{
    match matches.get_str(flag) {
        Some(value) => value == "true",
        None => false,
    }
}

/// The task of the subcommand `check`.
fn check_task(matches: &ArgMatches<'_>) -> Task
    ensures name { task_name result ≡ codes "check" }
    ensures rows { FitsRows result (rows_of (found_of matches.now)) }
{
    if has_flag(matches, "prefix") {
        Task::CheckPrefix
    } else {
        Task::Check
    }
}

/// The task of the subcommand `audit`.
fn audit_task(matches: &ArgMatches<'_>) -> Task
    ensures name { task_name result ≡ codes "audit" }
    ensures rows { FitsRows result (rows_of (found_of matches.now)) }
{
    if has_flag(matches, "all") {
        Task::AuditAll
    } else {
        Task::Audit
    }
}

/// The task of the subcommand `linear`. Clap has checked the range of the skew.
fn linear_task(matches: &ArgMatches<'_>) -> Task
    requires { IsNumberIn 0 max_skew (one_of (codes "skew") (rows_of (found_of matches.now))) }
    ensures name { task_name result ≡ codes "linear" }
    ensures rows { FitsRows result (rows_of (found_of matches.now)) }
{
    let skew = matches.get_one::<u64>("skew").unwrap();
    Task::Linear { skew }
}

/// The task of the subcommand `why`. None if a text that is to name an instance names none.
fn why_task(matches: &ArgMatches<'_>) -> Option<Task>
    ensures name { IfSome result (λ task. task_name task ≡ codes "why") }
    ensures rows { IfSome result (λ task. FitsRows task (rows_of (found_of matches.now))) }
    ensures none { IfNone result (¬ NameIds (rows_of (found_of matches.now))) }
{
    let from = read_id(matches.get_str("first")?)?;
    match matches.get_str("reaches") {
        None => Some(Task::Why(from)),
        Some(text) => Some(Task::Path(from, read_id(text)?)),
    }
}

/// The task of the subcommand `trace`. None if the text that is to be a key is none.
fn trace_task(matches: &ArgMatches<'_>) -> Option<Task>
    ensures name { IfSome result (λ task. task_name task ≡ codes "trace") }
    ensures rows { IfSome result (λ task. FitsRows task (rows_of (found_of matches.now))) }
    ensures none { IfNone result (¬ NamesKey (rows_of (found_of matches.now))) }
{
    let key = KeyName::new(matches.get_str("first")?)?;
    Some(Task::Trace {
        key,
        reads: has_flag(matches, "reads"),
    })
}

/// The task of the subcommand `graph` without `--around`. None if `--steps` is there.
fn whole_graph(matches: &ArgMatches<'_>) -> Option<Task>
    requires { None ≡ around_in (rows_of (found_of matches.now)) }
    ensures name { IfSome result (λ task. task_name task ≡ codes "graph") }
    ensures rows { IfSome result (λ task. FitsRows task (rows_of (found_of matches.now))) }
    ensures none { IfNone result (¬ NamesPart (rows_of (found_of matches.now))) }
{
    match matches.get_str("steps") {
        None => Some(Task::Graph),
        Some(_) => None,
    }
}

/// How many steps `--steps` says: one where it is not there. None if its text is no number.
fn steps_of(matches: &ArgMatches<'_>) -> Option<u64>
    ensures some { IfSome result (IsStepsOf (steps_in (rows_of (found_of matches.now)))) }
    ensures none { IfNone result
        (¬ IfSome (steps_in (rows_of (found_of matches.now))) (λ t. (n : ℕ) × IsNumberName n t)) }
{
    match matches.get_str("steps") {
        None => Some(1),
        Some(text) => {
            let steps = read_number(text)?;
            Some(steps)
        }
    }
}

/// The task of the subcommand `graph`. None if `--around` names no instance, or `--steps`, which
/// goes with it alone, is no number.
fn graph_task(matches: &ArgMatches<'_>) -> Option<Task>
    ensures name { IfSome result (λ task. task_name task ≡ codes "graph") }
    ensures rows { IfSome result (λ task. FitsRows task (rows_of (found_of matches.now))) }
    ensures none { IfNone result (¬ NamesPart (rows_of (found_of matches.now))) }
{
    match matches.get_str("around") {
        None => whole_graph(matches),
        Some(text) => {
            let id = read_id(text)?;
            let steps = steps_of(matches)?;
            Some(Task::Around { id, steps })
        }
    }
}

/// The task of any other subcommand.
fn plain_task(name: &str, matches: &ArgMatches<'_>) -> Task
    requires task { IsTaskName name.now }
    requires no_why { name.now ≢ codes "why" }
    requires no_trace { name.now ≢ codes "trace" }
    requires no_graph { name.now ≢ codes "graph" }
    requires skew { name.now ≡ codes "linear"
        → IsNumberIn 0 max_skew (one_of (codes "skew") (rows_of (found_of matches.now))) }
    ensures name { task_name result ≡ name.now }
    ensures rows { FitsRows result (rows_of (found_of matches.now)) }
{
    if name == "order" {
        Task::Order
    } else if name == "levels" {
        Task::Levels
    } else if name == "blockers" {
        Task::Blockers
    } else if name == "resume" {
        Task::Resume
    } else if name == "audit" {
        audit_task(matches)
    } else if name == "check" {
        check_task(matches)
    } else if name == "verify" {
        Task::Verify
    } else if name == "linear" {
        linear_task(matches)
    } else if name == "replay" {
        Task::Replay
    } else if name == "compare" {
        Task::Compare
    } else {
        Task::Run
    }
}

/// The task that a subcommand names. None if what is to name an instance, a key or a part of the
/// graph names none.
pub(crate) fn task_of(name: &str, matches: &ArgMatches<'_>) -> Option<Task>
    requires task { IsTaskName name.now }
    requires skew { name.now ≡ codes "linear"
        → IsNumberIn 0 max_skew (one_of (codes "skew") (rows_of (found_of matches.now))) }
    ensures name { IfSome result (λ task. task_name task ≡ name.now) }
    ensures rows { IfSome result (λ task. FitsRows task (rows_of (found_of matches.now))) }
    ensures none { IfNone result
        (¬ NamesSubject (Some (name.now, rows_of (found_of matches.now)))) }
{
    if name == "why" {
        return why_task(matches);
    }
    if name == "trace" {
        return trace_task(matches);
    }
    if name == "graph" {
        return graph_task(matches);
    }
    Some(plain_task(name, matches))
}
