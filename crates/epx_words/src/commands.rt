//! The program's command line, as a clap `Command`.
ghost use Rattle.std.specs.Prelude.{◌≡◌, IfOk, codes};
ghost use Rattle.clap.specs.Words.{app_of, new_app, rule_of};
ghost use Rattle.epx_words.specs.App.{audit_app, base_app, checks_app, epx_app, epx_top};
ghost use Rattle.epx_words.specs.App.{finding_app, finding_start, first_rule, flag_rule};
ghost use Rattle.epx_words.specs.App.{follow_app, graph_app, input_app, linear_app, list_app};
ghost use Rattle.epx_words.specs.App.{logs_rule, number_rule, numbers_app, runs_app, text_rule};
ghost use Rattle.epx_words.specs.App.{trace_app, why_app, with_input};
ghost use Rattle.epx_words.specs.inner.Making.{HasMade};

use clap::builder::ValueParser;
use clap::{Arg, ArgAction, Command};
use epx_types::plan::{MAX_CUT, MAX_WORKERS};
use std::alloc::{AllocError, Global};

const VERSION: &str = "0.2.0";

/// The greatest skew of clocks. The times of calls are below 2^63 too, so that sums fit a `u64`.
const MAX_SKEW: u64 = (1 << 63) - 1;

/// The help texts of a subcommand.
#[derive(Clone, Copy)]
struct Help {
    about: &'static str,
    long_about: &'static str,
    after: &'static str,
    long_after: &'static str,
}

const EXAMPLES: &str = "Examples:
  epx run examples/replicas/*.jsonl
  epx order examples/replicas/*.jsonl
  epx levels examples/replicas/*.jsonl";

const LOGS_AND_EXAMPLES: &str = "A log has one instance a line, as a JSON object:

  {\"r\":0,\"i\":0,\"seq\":1,\"deps\":[],\"ops\":[[\"put\",\"a\",5],[\"get\",\"a\"]]}

This is the instance 0 of replica 0, with sequence number 1 and no dependencies,
which writes 5 to the key a and reads it. It is committed, as with the status
committed or executed; accepted and pre-accepted ones are passed over.

The LOG - is standard input; without a LOG there are no logs. A fault counts the
logs from 0, in the order of the words, and the lines of each from 1.

Examples:
  epx run examples/replicas/*.jsonl
  epx order examples/replicas/*.jsonl
  epx levels examples/replicas/*.jsonl";

/// The help texts of the program itself, around the lines of the subcommands.
const EPX: &str = "Executes the committed instances of EPaxos from their logs";

const EPX_AFTER: &str =
    "A LOG has one instance a line; it is committed unless its status says otherwise:
  {\"r\":0,\"i\":0,\"seq\":1,\"deps\":[],\"ops\":[[\"put\",\"a\",5],[\"get\",\"a\"]]}
The LOG - is standard input. Without a LOG epx alone and epx follow read it, and
others read no log. Faults count logs from 0, and their lines from 1. Example:
  epx run examples/replicas/*.jsonl";

const RUN: Help = Help {
    about: "Prints the report: replies, what must wait, the final store",
    long_about: "Executes what the logs commit, and prints the report as lines of JSON: how many
instances are executed and how many wait, the reply of each executed one in
execution order, each instance that must wait with the missing one that it waits
for, and the final store.",
    after: EXAMPLES,
    long_after: LOGS_AND_EXAMPLES,
};

const ORDER: Help = Help {
    about: "Prints the execution order",
    long_about: "Prints the execution order of what the logs commit, and executes nothing: lines
of JSON, with how many instances are ready and how many wait, each ready one in
execution order with its depth and leader, and each instance that must wait with
the missing one that it waits for.",
    after: EXAMPLES,
    long_after: LOGS_AND_EXAMPLES,
};

const LEVELS: Help = Help {
    about: "Prints the conflict levels of the commands",
    long_about: "Prints the conflict levels of what the logs commit, and executes nothing: lines
of JSON, with how many instances are ready and how many wait, each ready one in
execution order with the level of its command, and each instance that must wait
with the missing one that it waits for. Commands of one level do not conflict.",
    after: EXAMPLES,
    long_after: LOGS_AND_EXAMPLES,
};

const BLOCKERS: Help = Help {
    about: "Says what to recover first: how many each missing instance blocks",
    long_about: "Says what to recover first, and executes nothing: lines of JSON, with how many
instances each missing one blocks, and how many wait for several missing ones.
An instance is missing if a committed one depends on it and no log commits it.",
    after: "Example:
  epx blockers examples/replicas/*.jsonl",
    long_after: "What comes out is a line for each missing instance, by its Id, and a last line.
Each instance that waits is counted once, in one of the numbers alone or in n:

  [\"blocks\",r,i,alone,named]  r.i is missing: so many instances reach it and no
                              other missing one, and so many of all have it
                              among their dependencies
  [\"several\",n]               n instances reach more than one missing instance

Example:
  epx blockers examples/replicas/*.jsonl",
};

const GRAPH: Help = Help {
    about: "Prints the dependency graph, to be drawn by Graphviz",
    long_about: "Prints the dependency graph of what the logs commit in DOT, the language of
Graphviz, and executes nothing: a box for each instance with its depth and
sequence number, an arrow to each of its dependencies, a cluster for each
component of two or more; instances that wait are dashed, missing ones dotted.
With --around it prints the part within --steps steps of one instance, which is
to be drawn where the whole graph is too large.",
    after: "Example:
  epx graph examples/replicas/*.jsonl | dot -Tsvg > graph.svg",
    long_after: "Of two ready instances that an arrow joins, the one that it leads to is executed
first, but for two of one cluster, which reach each other: these are executed by
sequence number, then replica, then number.

With --around a step leads from an instance to one of its dependencies, or to
one that depends on it. Each box says what it says in the whole graph, and each
dependency between two boxes has its arrow.

Examples:
  epx graph examples/replicas/*.jsonl | dot -Tsvg > graph.svg
  epx graph --around 1.1 --steps 2 examples/replicas/*.jsonl | dot -Tsvg",
};

const RESUME: Help = Help {
    about: "Goes on from an earlier report, and prints the report",
    long_about: "Executes what the logs commit and an earlier report has not executed yet, over
the store of that report, and prints the report as run does, with a line for
each instance that was executed before. That report can be resumed in turn.",
    after: "Example:
  epx resume earlier.report examples/replicas/*.jsonl",
    long_after: "A base is what epx run or epx resume printed. The instances that have a reply in
it, or are listed there as done, are not executed again, and what depends on
them does not wait for them. The logs must name those that wait in it again.

Example:
  epx run examples/replicas/0.jsonl > earlier.report
  epx resume earlier.report examples/replicas/*.jsonl",
};

const AUDIT: Help = Help {
    about: "Says whether the logs are covered",
    long_about: "Says whether the logs are covered, and executes nothing: whether of any two
ready instances that conflict one reaches the other by dependencies. Where they
are, all orders that the protocol allows give each instance the same reply, and
the same final store. With --all it prints all pairs that would have to be
related for that.",
    after: "Example:
  epx audit examples/replicas/*.jsonl",
    long_after: "What comes out is one line. The second form names the least pair that conflicts
and of which neither reaches the other, here the instances 0.7 and 1.0:

  [\"covered\"]
  [\"uncovered\",0,7,1,0]

With --all it is a line for each pair that is next to each other on a key in the
execution order and not related, the one that is executed first in front:

  [\"uncovered\",0,7,1,0,\"k\"]   1.0 would have to depend on 0.7, for the key k

Examples:
  epx audit examples/replicas/*.jsonl
  epx audit --all examples/replicas/*.jsonl",
};

const CHECK: Help = Help {
    about: "Says whether a list is an order that the protocol allows",
    long_about: "Says whether a list of instances is an order that the protocol allows for what
the logs commit, and executes nothing. Such an order is lawful: each ready
instance is in it once, after all that it reaches by dependencies, but for those
of its component, which reach each other: these come by sequence number, then
replica, then number.",
    after: "Example:
  epx check executed.list examples/replicas/*.jsonl",
    long_after: "A list has one instance a line, as replica and number; blank lines are passed
over:

  [0,7]

What comes out is one line, in which places in the list count from 0:

  [\"lawful\"]       the list is lawful
  [\"stranger\",p]   the instance at place p is not ready
  [\"repeat\",p]     the one at place p is in the list earlier too
  [\"missing\",r,i]  the instance i of replica r is ready and not in the list
  [\"early\",p]      one that it reaches, outside its component, comes later
  [\"sequence\",p]   one of its component, which is to follow it, comes earlier

With --prefix the list is that of a live replica, and may lack ready instances:

  [\"lawful\"]       a lawful order begins with the list
  [\"early\",p]      one that it reaches, outside its component, is not before it
  [\"sequence\",p]   one of its component, which is to follow it, comes earlier, or
                   one that it is to follow is not in the list

Example:
  epx check executed.list examples/replicas/*.jsonl",
};

const VERIFY: Help = Help {
    about: "Says whether what a replica said is right",
    long_about: "Says whether what a replica said is right: whether a lawful order begins with
the order in which it executed, and whether its replies and its store are those
of what the logs commit, executed in that order.",
    after: "Example:
  epx verify replica.said examples/replicas/*.jsonl",
    long_after: "SAID has the reply lines that the replica gave, in the order in which it
executed, and then its store lines, as a report has them. A report without its
first line and without its waiting lines is one.

What comes out is first the line that check --prefix prints for that order. If
it is lawful, a line follows for each reply and each key that is wrong: what was
said, and what is right, null where a side has none. The values are examples:

  [\"lawful\"]                              a lawful order begins with that order
  [\"reply\",r,i,[\"ok\",[70]],[\"abort\",0]]  the reply of the instance r.i is wrong
  [\"store\",k,121,105]                     the value of the key k is wrong

Example:
  epx verify replica.said examples/replicas/*.jsonl",
};

const LINEAR: Help = Help {
    about: "Says whether clients saw one copy: whether a history is linear",
    long_about: "Says whether clients saw one copy: whether a history is linear. HISTORY has the
calls of clients with their times. It is linear where each call that returned is
executed, each answer is the reply of its instance, and some serial execution
with the same replies, which keeps the order of commands that conflict, has each
call before all that were invoked after it returned. This is said of the
execution order of these logs alone.",
    after: "Example:
  epx linear calls.history examples/replicas/*.jsonl",
    long_after: "HISTORY has a line for each call: the instance r.i, the times at which it was
invoked and returned, null where no answer came, and the reply, if it is known:

  [\"call\",r,i,invoked,returned]
  [\"call\",r,i,invoked,returned,\"ok\",[..]]
  [\"call\",r,i,invoked,returned,\"abort\",j]

Times are whole numbers of one clock, below 2^63. Blank lines are passed over,
and no instance has two calls.

What comes out is one line if the history is linear, and else lines for calls
that do not fit: those executed, in their order, and then those lost, by Id:

  [\"linear\"]            the history is linear
  [\"reply\",r,i]         r.i is answered otherwise than executed
  [\"late\",r,i,r2,i2]    r.i is executed after r2.i2 by a chain of conflicts, and
                        had returned before r2.i2 was invoked
  [\"lost\",r,i]          r.i returned, and is not executed

--skew D adds D to the time of each return, for clocks that differ by at most D.

Example:
  epx linear calls.history examples/replicas/*.jsonl",
};

const REPLAY: Help = Help {
    about: "Executes a list of instances in its order: replies, the final store",
    long_about: "Executes the instances of a list in the order of the list, over what the logs
commit, and prints their replies and then the final store, as a report has them.
Any order is executed: whether the protocol allows it is what check says. An
instance that no log commits is executed as a command without operations.",
    after: "Example:
  epx replay executed.list examples/replicas/*.jsonl",
    long_after: "A list has one instance a line, as replica and number; blank lines are passed
over:

  [0,7]

What comes out is a line for each instance of the list, in its order, and then a
line for each key, by its name:

  [\"reply\",r,i,\"ok\",[..]]   the values that its command reads
  [\"reply\",r,i,\"abort\",j]   its command aborts at operation j, counted from 0
  [\"store\",k,v]            the value of a key in the final store

Example:
  epx replay executed.list examples/replicas/*.jsonl",
};

const COMPARE: Help = Help {
    about: "Says what the logs say against each other",
    long_about: "Says what the logs say against each other, and executes nothing: lines of JSON,
with how many lines of each log commit an instance and how many are bad, the bad
lines, the instances that lines commit differently, those that a log lacks, and
the dependencies that no log commits. Bad lines and lines that differ are no
faults here.",
    after: "Example:
  epx compare examples/replicas/*.jsonl",
    long_after: "What comes out is a line for each of these, in this order:

  [\"log\",L,lines,bad]        a log: its committed lines, and its bad ones
  [\"bad\",L,N,\"WHY\"]          a bad line
  [\"differs\",r,i,[..],[..]]  the members in which lines of an instance differ,
                             and where the lines are that commit the same
  [\"lacks\",L,r,from,to]      log L lacks these instances of replica r
  [\"missing\",r,i,count]      no log commits it; so many instances depend on it

Example:
  epx compare examples/replicas/*.jsonl",
};

const WHY: Help = Help {
    about: "Says why an instance is executed where it is, or why it is not",
    long_about: "Says why an instance is executed where it is, or why it is not, and executes
nothing: its position in the execution order with its depth and leader, or the
missing instances that it waits for, or what waits for it if no log commits it.
With --reaches it prints a shortest path of dependencies to another instance.",
    after: "Example:
  epx why 2.1 examples/replicas/*.jsonl",
    long_after: "R.I is the instance with number I of replica R. What comes out is one of these
three, and a line for each instance at the other end of a path, by its Id:

  [\"ready\",r,i,p,d,lr,li]   it is executed at position p, counted from 0, with the
                            depth d and the leader lr.li
  [\"waiting\",r,i,mr,mi]     it waits for the least missing one that it reaches
  [\"needs\",mr,mi,steps]     it reaches this missing one, in that many steps
  [\"missing\",r,i]           no log commits it
  [\"needed\",r,i,steps]      this one reaches it, in that many steps

With --reaches it is one line. Of the shortest paths it is the first by its Ids:

  [\"path\",[r,i],..,[r,i]]   the instances of the path, with both ends
  [\"none\"]                  no path leads there

Example:
  epx why 1.1 --reaches 0.0 examples/replicas/*.jsonl",
};

const TRACE: Help = Help {
    about: "Prints which executed commands write a key",
    long_about: "Executes what the logs commit, and prints which commands write a key, in
execution order, each with the value that the key had before and the one that it
has after. With --reads it also prints those that read the key.",
    after: "Example:
  epx trace alice examples/replicas/*.jsonl",
    long_after: "What comes out is a line for each command that has the key, in execution order.
A value is null where the key is absent. A command that aborts writes nothing:

  [\"write\",r,i,before,after]   the command of instance r.i writes the key
  [\"read\",r,i,value]           with --reads: it has the key, and does not write it

Example:
  epx trace alice examples/replicas/*.jsonl",
};

const FOLLOW: Help = Help {
    about: "Executes logs as they come, and prints the replies batch by batch",
    long_about: "Reads the lines of the logs as they come, executes what they commit, and prints
the replies batch by batch. A blank line ends a batch, and so does the end of
the last log; with --each every line is a batch. With --state it goes on from a
state that --save saved earlier, or from an earlier report, and with --save it
saves at the end what it goes on from next time. At the end it prints which
instances wait, and the final store.",
    after: "Examples:
  tail -n +1 -f examples/replicas/0.jsonl | epx follow --each
  epx follow --state old.state --save new.state more.jsonl",
    long_after: "The logs are read one after another. Without a LOG standard input is read, as
with the LOG -. What comes out after each batch is a line of counts, and a line
for each instance that is executed now, in execution order:

  [\"came\",N,\"executed\",E,\"waiting\",W]   N of its instances are new; of all that
                                        came, E are executed now and W wait
  [\"reply\",r,i,\"ok\",[..]]               E such lines, or with \"abort\",j as
                                        in a report

At the end come the last lines of a report:

  [\"waiting\",r,i,mr,mi]   it waits for the least missing one that it reaches
  [\"store\",k,v]           the value of a key in the final store

Examples:
  tail -n +1 -f examples/replicas/0.jsonl | epx follow --each
  epx follow --state old.state --save new.state more.jsonl",
};

/// What `--exit-code` asks of a subcommand of whose instances some can wait.
const IF_WAITING: &str = "Exits with status 5 if an instance waits";

/// What it asks of a subcommand that says what is wrong.
const IF_FOUND: &str = "Exits with status 5 if something was found";

/// An option whose value is a number from `least` to `most`.
fn number_option<'a>(
    alloc: Global,
    name: &'a str,
    value: &'a str,
    default: &'a str,
    least: u64,
    most: u64,
) -> Arg<'a>
    ensures { rule_of result ≡ number_rule name.entry.now default.entry.now least most }
{
    Arg::new(alloc, name)
        .long(name)
        .value_name(value)
        .action(ArgAction::Set)
        .default_value(default)
        .value_parser(ValueParser::unsigned(least, most))
}

/// A subcommand with its name and its help, without arguments.
fn with_help<'a>(alloc: Global, name: &'a str, help: Help) -> Command<'a>
    ensures { app_of result ≡ new_app name.entry.now }
{
    Command::new(alloc, name)
        .about(help.about)
        .long_about(help.long_about)
        .after_help(help.after)
        .after_long_help(help.long_after)
}

/// A flag, which has no value.
fn flag<'a>(alloc: Global, name: &'a str, help: &'a str) -> Arg<'a>
    ensures { rule_of result ≡ flag_rule name.entry.now }
{
    Arg::new(alloc, name)
        .long(name)
        .action(ArgAction::SetTrue)
        .help(help)
}

/// A subcommand with the options that all subcommands have: `--workers`, `--cut`, `--explain` and
/// `--quiet`.
fn subcommand<'a>(alloc: Global, name: &'a str, help: Help) -> Result<Command<'a>, AllocError>
    ensures { IfOk result (λ c. app_of c ≡ numbers_app name.entry.now) }
{
    // Each argument is made where it is added, so that none waits while another one is added.
    with_help(alloc, name, help)
        .arg(number_option(alloc, "workers", "N", "4", 1, MAX_WORKERS as u64).help(
            "Workers that share the work, 1 to 64",
        ))?
        .arg(number_option(alloc, "cut", "M", "256", 1, MAX_CUT as u64).help(
            "Items in a piece of work, 1 to 65536",
        ))?
        .arg(flag(
            alloc,
            "explain",
            "Explains a fault or a finding in further lines",
        ))?
        .arg(flag(alloc, "quiet", "Shows no progress on a terminal"))
}

/// The flag `--exit-code`, of a subcommand that finds this.
fn exit_code<'a>(alloc: Global, found: &'a str) -> Arg<'a>
    ensures { rule_of result ≡ flag_rule (codes "exit-code") }
{
    flag(alloc, "exit-code", found)
}

/// An option whose value is a text.
fn text_option<'a>(alloc: Global, name: &'a str, value: &'a str, help: &'a str) -> Arg<'a>
    ensures { rule_of result ≡ text_rule name.entry.now }
{
    Arg::new(alloc, name)
        .long(name)
        .value_name(value)
        .action(ArgAction::Set)
        .help(help)
}

/// The argument LOG, which may occur any number of times.
fn logs<'a>(alloc: Global) -> Arg<'a>
    ensures { rule_of result ≡ logs_rule }
{
    Arg::new(alloc, "logs")
        .value_name("LOG")
        .action(ArgAction::Append)
        .help("The logs to read, - for standard input; faults count them from 0")
}

/// The required argument before the logs: BASE, LIST, SAID, HISTORY, R.I or KEY.
fn first<'a>(alloc: Global, value: &'a str, help: &'a str) -> Arg<'a>
    ensures { rule_of result ≡ first_rule }
{
    Arg::new(alloc, "first")
        .value_name(value)
        .action(ArgAction::Set)
        .required(true)
        .help(help)
}

/// A subcommand that can find something, before its other arguments.
fn finding_start<'a>(
    alloc: Global,
    name: &'a str,
    help: Help,
    found: &'a str,
) -> Result<Command<'a>, AllocError>
    ensures { IfOk result (λ c. app_of c ≡ finding_start name.entry.now) }
{
    subcommand(alloc, name, help)?.arg(exit_code(alloc, found))
}

/// A subcommand over logs that can find something.
fn finding_subcommand<'a>(
    alloc: Global,
    name: &'a str,
    help: Help,
    found: &'a str,
) -> Result<Command<'a>, AllocError>
    ensures { IfOk result (λ c. app_of c ≡ finding_app name.entry.now) }
{
    finding_start(alloc, name, help, found)?.arg(logs(alloc))
}

/// The subcommand with a required argument, and then the logs.
fn with_input<'a>(
    alloc: Global,
    subcommand: Command<'a>,
    value: &'a str,
    help: &'a str,
) -> Result<Command<'a>, AllocError>
    ensures { IfOk result (λ c. app_of c ≡ with_input (app_of subcommand.entry)) }
{
    subcommand.arg(first(alloc, value, help))?.arg(logs(alloc))
}

/// The subcommand `graph`, whose arguments are logs.
fn graph<'a>(alloc: Global) -> Result<Command<'a>, AllocError>
    ensures { IfOk result (λ c. app_of c ≡ graph_app (codes "graph")) }
{
    subcommand(alloc, "graph", GRAPH)?
        .arg(text_option(
            alloc,
            "around",
            "R.I",
            "Prints the part around this instance alone",
        ))?
        .arg(text_option(
            alloc,
            "steps",
            "N",
            "How many steps around it, either way along dependencies [default: 1]",
        ))?
        .arg(logs(alloc))
}

/// The subcommand `audit`, whose arguments are logs.
fn audit<'a>(alloc: Global) -> Result<Command<'a>, AllocError>
    ensures { IfOk result (λ c. app_of c ≡ audit_app (codes "audit")) }
{
    finding_start(alloc, "audit", AUDIT, IF_FOUND)?
        .arg(flag(
            alloc,
            "all",
            "Prints all pairs that would have to be related, each with its key",
        ))?
        .arg(logs(alloc))
}

/// The subcommand `resume`, whose arguments are BASE and logs.
fn resume<'a>(alloc: Global) -> Result<Command<'a>, AllocError>
    ensures { IfOk result (λ c. app_of c ≡ base_app (codes "resume")) }
{
    let resume = finding_start(alloc, "resume", RESUME, IF_WAITING)?;
    with_input(alloc, resume, "BASE", "The earlier report to go on from")
}

/// The subcommand `check`, whose arguments are LIST and logs.
fn check<'a>(alloc: Global) -> Result<Command<'a>, AllocError>
    ensures { IfOk result (λ c. app_of c ≡ list_app (codes "check")) }
{
    let check = finding_start(alloc, "check", CHECK, IF_FOUND)?.arg(flag(
        alloc,
        "prefix",
        "Lets the list lack ready instances, as that of a live replica does",
    ))?;
    with_input(alloc, check, "LIST", "The list to check")
}

/// The subcommand `verify`, whose arguments are SAID and logs.
fn verify<'a>(alloc: Global) -> Result<Command<'a>, AllocError>
    ensures { IfOk result (λ c. app_of c ≡ base_app (codes "verify")) }
{
    let verify = finding_start(alloc, "verify", VERIFY, IF_FOUND)?;
    with_input(
        alloc,
        verify,
        "SAID",
        "What the replica said: its replies and its store",
    )
}

/// The subcommand `linear`, whose arguments are HISTORY and logs.
fn linear<'a>(alloc: Global) -> Result<Command<'a>, AllocError>
    ensures { IfOk result (λ c. app_of c ≡ linear_app (codes "linear")) }
{
    let linear = finding_start(alloc, "linear", LINEAR, IF_FOUND)?.arg(number_option(
        alloc, "skew", "D", "0", 0, MAX_SKEW,
    ).help("How much clocks may differ, 0 to 2^63 - 1, in the unit of the times"))?;
    with_input(
        alloc,
        linear,
        "HISTORY",
        "The calls of clients with their times",
    )
}

/// The subcommand `replay`, whose arguments are LIST and logs.
fn replay<'a>(alloc: Global) -> Result<Command<'a>, AllocError>
    ensures { IfOk result (λ c. app_of c ≡ input_app (codes "replay")) }
{
    let replay = subcommand(alloc, "replay", REPLAY)?;
    with_input(alloc, replay, "LIST", "The list to execute")
}

/// The subcommand `why`, whose arguments are the name of an instance and logs.
fn why<'a>(alloc: Global) -> Result<Command<'a>, AllocError>
    ensures { IfOk result (λ c. app_of c ≡ why_app (codes "why")) }
{
    let why = subcommand(alloc, "why", WHY)?.arg(text_option(
        alloc,
        "reaches",
        "R.I",
        "Prints a shortest path of dependencies to this instance instead",
    ))?;
    with_input(alloc, why, "R.I", "The instance with number I of replica R")
}

/// The subcommand `trace`, whose arguments are a key and logs.
fn trace<'a>(alloc: Global) -> Result<Command<'a>, AllocError>
    ensures { IfOk result (λ c. app_of c ≡ trace_app (codes "trace")) }
{
    let trace = subcommand(alloc, "trace", TRACE)?.arg(flag(
        alloc,
        "reads",
        "Prints the commands that read the key, too",
    ))?;
    with_input(alloc, trace, "KEY", "The key, a text of 1 to 64 bytes")
}

/// The subcommand `follow`, whose arguments are logs.
fn follow<'a>(alloc: Global) -> Result<Command<'a>, AllocError>
    ensures { IfOk result (λ c. app_of c ≡ follow_app (codes "follow")) }
{
    subcommand(alloc, "follow", FOLLOW)?
        .arg(flag(alloc, "each", "Makes every line a batch"))?
        .arg(text_option(
            alloc,
            "state",
            "STATE",
            "Goes on from this state, or from an earlier report",
        ))?
        .arg(text_option(
            alloc,
            "save",
            "STATE",
            "Saves the state at the end under this path",
        ))?
        .arg(logs(alloc))
}

/// The program without its subcommands. Its usage line has the subcommand as optional: `epx` with
/// no arguments reads one log from standard input. Of an option that is given twice the last
/// counts, so that words override those of an alias.
fn start<'a>(alloc: Global) -> Command<'a>
    ensures { app_of result ≡ epx_top }
{
    Command::new(alloc, "epx")
        .about(EPX)
        .after_help(EPX_AFTER)
        .override_usage("epx [COMMAND]")
        .version(VERSION)
        .subcommand_required(true)
        .args_override_self(true)
}

/// The program with this subcommand too. An error where the subcommand could not be made.
fn with_subcommand<'a>(
    program: Command<'a>,
    made: Result<Command<'a>, AllocError>,
) -> Result<Command<'a>, AllocError>
    ensures { IfOk result (HasMade program.entry made.entry) }
{
    program.subcommand(made?)
}

/// The program with the subcommands `run`, `order`, `levels`, `blockers` and `graph`.
fn with_runs<'a>(alloc: Global) -> Result<Command<'a>, AllocError>
    ensures { IfOk result (λ c. app_of c ≡ runs_app) }
{
    let run = finding_subcommand(alloc, "run", RUN, IF_WAITING);
    let program = with_subcommand(start(alloc), run)?;
    let order = finding_subcommand(alloc, "order", ORDER, IF_WAITING);
    let program = with_subcommand(program, order)?;
    let levels = finding_subcommand(alloc, "levels", LEVELS, IF_WAITING);
    let program = with_subcommand(program, levels)?;
    let blockers = finding_subcommand(alloc, "blockers", BLOCKERS, IF_WAITING);
    let program = with_subcommand(program, blockers)?;
    with_subcommand(program, graph(alloc))
}

/// The program with these, `resume`, `audit`, `check`, `verify` and `linear`.
fn with_checks<'a>(alloc: Global) -> Result<Command<'a>, AllocError>
    ensures { IfOk result (λ c. app_of c ≡ checks_app) }
{
    let program = with_subcommand(with_runs(alloc)?, resume(alloc))?;
    let program = with_subcommand(program, audit(alloc))?;
    let program = with_subcommand(program, check(alloc))?;
    let program = with_subcommand(program, verify(alloc))?;
    with_subcommand(program, linear(alloc))
}

/// The program with all subcommands.
pub(crate) fn command<'a>(alloc: Global) -> Result<Command<'a>, AllocError>
    ensures { IfOk result (λ c. app_of c ≡ epx_app) }
{
    let program = with_subcommand(with_checks(alloc)?, replay(alloc))?;
    let compare = finding_subcommand(alloc, "compare", COMPARE, IF_FOUND);
    let program = with_subcommand(program, compare)?;
    let program = with_subcommand(program, why(alloc))?;
    let program = with_subcommand(program, trace(alloc))?;
    with_subcommand(program, follow(alloc))
}
